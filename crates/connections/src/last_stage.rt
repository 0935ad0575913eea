// Suspects of earlier runs: when their debts are offered. In the last stage of the last phase each is offered once.
ghost use Rattle.std.specs.Prelude.{◌≡◌, ◌+◌, ◌-◌, ◌^◌, ℕ, Some, None, false, true, min};
ghost use Rattle.connections.specs.Suspects.{claim_step, stage_moment};

// How long a suspect is put off when it is claimed first, in a run that goes on until it is ended.
const SUSPECT_WAIT_SECONDS: u64 = 60;

// The first moment of the last stage. All moments but the greatest, up to which waits what waits for the next run, are
// those of the suspects' places.
const LAST_STAGE_BEGIN: u64 = u64::MAX - 4_096;

const PLACE_MAX: u64 = 4_095;

/// What to do about a debt that was claimed.
#[derive(Clone, Copy, Debug, PartialEq, Eq)]
pub enum ClaimStep {
    /// It is offered.
    Offer,
    /// It is put off until this moment.
    PutOff { until: u64 },
}

/// The moment of the last stage at which the suspect with this place is offered. Those with lesser places come before
/// it.
pub fn stage_moment(place: u64) -> u64
    ensures { result ≡ stage_moment place }
{
    LAST_STAGE_BEGIN + place.min(PLACE_MAX)
}

/// What to do about a debt that was claimed at this moment, and has this place if it is a suspect that was not offered
/// in this run. Such a suspect waits for its moment of the last stage; if the run goes on until it is ended, for a
/// minute. In the last stage nothing else is offered, and what is claimed besides waits for the next run.
pub fn claim_step(now: u64, place: Option<u64>, is_lasting: bool, is_last_stage: bool) -> ClaimStep
    ensures { result ≡ claim_step now place is_lasting is_last_stage }
{
    match (place, is_last_stage) {
        (Some(_), true) | (None, false) => ClaimStep::Offer,
        (None, true) => ClaimStep::PutOff { until: u64::MAX },
        (Some(place), false) => ClaimStep::PutOff {
            until: if is_lasting {
                now.saturating_add(SUSPECT_WAIT_SECONDS)
            } else {
                stage_moment(place)
            },
        },
    }
}

/// Until when the debt at which a connection failed is put off, if it is to be for so many seconds. In the last stage
/// it is put off in any case, until the next run.
pub(crate) fn failed_until(now: u64, wait: Option<u64>, is_last_stage: bool) -> Option<u64>
    ensures last_stage { is_last_stage ≡ true → result ≡ Some (2 ^ 64 - 1) }
    ensures none { is_last_stage ≡ false → wait ≡ None → result ≡ None }
    ensures waits { (seconds : ℕ) → is_last_stage ≡ false → wait ≡ Some seconds
        → result ≡ Some (min (now + seconds) (2 ^ 64 - 1)) }
{
    if is_last_stage {
        return Some(u64::MAX);
    }
    match wait {
        Some(seconds) => Some(now.saturating_add(seconds)),
        None => None,
    }
}
