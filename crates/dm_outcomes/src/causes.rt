//! Causes, compared.

ghost use Rattle.std.specs.Prelude.{◌≡◌};
ghost use Rattle.dm_model.specs.Tests.{same_byte, same_cause};

use dm_event::Cause;

pub(crate) fn same_cause(a: Cause, b: Cause) -> bool
    ensures { result ≡ same_cause a b }
{
    match (a, b) {
        (Cause::Undeclared { key: one }, Cause::Undeclared { key: other }) => one == other,
        (Cause::Log { site: one }, Cause::Log { site: other }) => one == other,
        (
            Cause::Damage {
                site,
                place,
                read,
                written,
            },
            Cause::Damage {
                site: other_site,
                place: other_place,
                read: other_read,
                written: other_written,
            },
        ) => {
            site == other_site
                && (place == other_place
                    && (same_byte(read, other_read) && same_byte(written, other_written)))
        }
        (Cause::Memory, Cause::Memory) => true,
        _ => false,
    }
}

pub fn same_byte(a: Option<u8>, b: Option<u8>) -> bool
    ensures { result ≡ same_byte a b }
{
    match (a, b) {
        (None, None) => true,
        (Some(one), Some(other)) => one == other,
        _ => false,
    }
}
