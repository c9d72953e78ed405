//! Why a schema file could not be read.

ghost use Rattle.std.specs.Prelude.{◌≡◌};
ghost use Rattle.dm_schema.specs.declared.error.SchemaError.TheVariants.{Memory};

use crate::name::Name;
use dm_event::NoMemory;
use thiserror::Error;

/// What is wrong with a schema file.
#[derive(Debug, Drop)]
pub enum SchemaFlaw {
    /// The bytes are no TOML document.
    NotToml,
    /// A name that a schema doesn't have: of several the least, in the order of their bytes.
    Unknown { name: Name },
    /// A name that a schema must have isn't there.
    Missing { name: Name },
    /// What stands at the name, or an element of it, is no value of its type.
    WrongType { name: Name },
    /// What stands at the name, or an element of it, is outside its range.
    Range { name: Name },
}

#[derive(Debug, Drop, Error)]
pub enum SchemaError {
    /// The first flaw: of the whole file, then of its names, then of each name in turn, from `sites`,
    /// `width` and `masters` to `weights` and `values`.
    #[error("a flaw of the schema")]
    Fault { flaw: SchemaFlaw },
    #[error("no memory")]
    Memory,
}

impl From<NoMemory> for SchemaError {
    ghost from_gives = { λ _ e. e ≡ Memory };

    fn from(_e: NoMemory) -> SchemaError {
        SchemaError::Memory
    }
}
