// What a caller names by numbers: the plan of a press; the edition of a replay is named alone (`Edition::try_from`).
ghost use Rattle.std.specs.Prelude.{◌≡◌};
ghost use Rattle.c_report.specs.Named.{names, edition_of, unnamed_code, lowering_named, plan_of};
ghost use Rattle.c_report.specs.declared.named.Unnamed.TheVariants as U;

use press_spec::{Lowerable, NoLowerable, NoRecycling, Plan, Recycling};
use sheet::edition::{Edition, NoEdition};

// What a number does not name, with the number that is answered.
#[derive(Clone, Copy, PartialEq, Eq)]
pub enum Unnamed {
    Edition = 255,
    Recycling = 254,
    Lowering = 253,
}

impl From<NoEdition> for Unnamed {
    ghost from_gives = { λ _ what. what ≡ U.Edition };

    fn from(_number: NoEdition) -> Unnamed {
        Unnamed::Edition
    }
}

impl From<NoRecycling> for Unnamed {
    ghost from_gives = { λ _ what. what ≡ U.Recycling };

    fn from(_number: NoRecycling) -> Unnamed {
        Unnamed::Recycling
    }
}

impl From<NoLowerable> for Unnamed {
    ghost from_gives = { λ _ what. what ≡ U.Lowering };

    fn from(_number: NoLowerable) -> Unnamed {
        Unnamed::Lowering
    }
}

impl From<Unnamed> for u32 {
    ghost from_gives = { λ what number. number ≡ unnamed_code what };

    #[tactic(auto, unfolding(crate::specs::Named::unnamed_code))]
    fn from(what: Unnamed) -> u32 {
        what as u32
    }
}

// Whether a number names an edition; the same numbers name a recycling.
#[tactic(auto, unfolding(crate::specs::Named::names, sheet::specs::Editions::edition_named))]
pub fn names_one(number: u32) -> bool
    ensures { result ≡ names number }
{
    Edition::try_from(number).is_ok()
}

// The edition that a number names; of those that name none it may be any.
#[tactic(auto, unfolding(crate::specs::Named::edition_of, sheet::specs::Editions::edition_named))]
pub fn edition_of(number: u32) -> Edition
    ensures { result ≡ edition_of number }
{
    Edition::try_from(number).unwrap_or(Edition::Wide)
}

// 0 names that nothing is lowered.
#[tactic(auto, unfolding(crate::specs::Named::lowering_named, crate::specs::Named::names_lowering, crate::specs::Named::lowering_of, press_spec::specs::Plans::lowerable_named))]
fn lowering_named(number: u32) -> Result<Option<Lowerable>, NoLowerable>
    ensures { result ≡ lowering_named number }
{
    if number == 0 {
        return Ok(None);
    }
    Ok(Some(Lowerable::try_from(number)?))
}

// The edition is looked at first, then the recycling, then the lowering.
#[tactic(auto, unfolding(crate::specs::Named::plan_of, crate::specs::Named::names, crate::specs::Named::edition_of, crate::specs::Named::recycling_of, crate::specs::Named::lowering_named, sheet::specs::Editions::edition_named, press_spec::specs::Plans::recycling_named))]
pub fn plan_of(edition: u32, recycling: u32, lowering: u32) -> Result<Plan, Unnamed>
    ensures { result ≡ plan_of edition recycling lowering }
{
    Ok(Plan {
        edition: Edition::try_from(edition)?,
        recycling: Recycling::try_from(recycling)?,
        lowering: lowering_named(lowering)?,
    })
}
