// The version of the format.
ghost use Rattle.std.specs.Prelude.{◌≡◌};
ghost use Rattle.serde_json.specs.View.{view};
ghost use Rattle.read_file.specs.Version.{version_at, major_of};

use problem::{Place, Refusal, RefusalKind};
use serde_json::Value;

fn major(value: &Value) -> Option<u64>
    ensures { result ≡ major_of (view value.now) }
{
    value.get("version")?.get("major")?.as_u64()
}

/// The version has to be an object whose `major` is the whole number 1, else Version.
#[tactic(auto, unfolding(crate::specs::Version::version_at))]
pub(crate) fn version(value: &Value) -> Result<(), Refusal>
    ensures { result ≡ version_at (view value.now) }
{
    if major(value) == Some(1) {
        Ok(())
    } else {
        Err(RefusalKind::Version.at(Place::WHOLE))
    }
}
