ghost use Rattle.std.specs.Prelude.{◌≡◌};
ghost use Rattle.reading.specs.Reading.{Gives};
ghost use Rattle.scenario_xml.specs.Faults.{is_memory};
ghost use Rattle.scenario_xml.specs.Versions.{version_in, has_roles, names_obstacle};

use crate::fault::ScenarioFault;
use scenario_model::Version;

// The version that is written so.
#[tactic(auto, unfolding(crate::specs::Versions::version_in))]
pub fn version_in(text: &[u8]) -> Result<Version, ScenarioFault>
    ensures { Gives is_memory (λ version. version) result (version_in text.now) }
{
    if text == b"2020a".as_slice() {
        Ok(Version::V2020a)
    } else if text == b"2018b".as_slice() {
        Ok(Version::V2018b)
    } else {
        Err(ScenarioFault::WrongVersion)
    }
}

// Whether the version has the element `obstacle`.
fn has_roles(version: Version) -> bool
    ensures { result ≡ has_roles version }
{
    match version {
        Version::V2020a => false,
        Version::V2018b => true,
    }
}

// Whether the name is that of an obstacle, in a version.
#[tactic(auto, unfolding(crate::specs::Versions::names_obstacle))]
pub fn names_obstacle(version: Version, name: &[u8]) -> bool
    ensures { result ≡ names_obstacle version name.now }
{
    name == b"staticObstacle".as_slice()
        || name == b"dynamicObstacle".as_slice()
        || (has_roles(version) && name == b"obstacle".as_slice())
}
