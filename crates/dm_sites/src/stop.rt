//! Why a call at a site came to nothing.

ghost use Rattle.std.specs.Prelude.{◌≡◌};
ghost use Rattle.dm_sites.specs.Telling.{cause_of};
ghost use Rattle.dm_sites.specs.declared.stop.Stop.TheVariants.{NoMemory};

use dm_event::{Cause, NoMemory};

/// Why a call at a site came to nothing.
#[derive(Debug, Drop)]
pub enum Stop {
    /// The attempt failed at the site, with a step that says so.
    Failed { cause: Cause },
    NoMemory,
}

impl From<NoMemory> for Stop {
    ghost from_gives = { λ _ stop. stop ≡ NoMemory };

    fn from(_: NoMemory) -> Stop {
        Stop::NoMemory
    }
}

impl Stop {
    /// The cause that the session is refused for.
    pub fn cause(&self) -> Cause
        ensures { result ≡ cause_of self.now }
    {
        match self {
            Stop::Failed { cause } => *cause,
            Stop::NoMemory => Cause::Memory,
        }
    }
}
