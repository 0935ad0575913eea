//! Laws of names and of segments, each the contract of a function that does nothing.
ghost use Rattle.std.specs.Prelude.{◌≡◌, ◌+◌, ◌<◌, ◌≤◌, ℕ, List, Option, Contains};
ghost use Rattle.std.specs.Prelude.{IfNone, IfSome, IsSomeAnd};
ghost use Rattle.segments.specs.Firsts.{IsBefore, IsPlaceOf};
ghost use Rattle.segments.specs.Names.{ComesBefore, IsNameOf};
ghost use Rattle.segments.specs.Stops.{Event, State, Holds, IsAllowed, IsLeft, Remove, Runs};
ghost use Rattle.segments.specs.Stops.{start};
ghost use Rattle.segments.specs.declared.place.SegmentPlace.{SegmentPlace};

/// A name has one number.
#[tactic(auto, using(crate::specs::NameLaws::one_number))]
pub fn one_number()
    ensures { (name : List ℕ) (m n : ℕ) → IsNameOf name m → IsNameOf name n → m ≡ n }
{}

/// A number has one name.
#[tactic(auto, using(crate::specs::NameLaws::one_name))]
pub fn one_name()
    ensures { (one other : List ℕ) (number : ℕ) → IsNameOf one number → IsNameOf other number
        → one ≡ other }
{}

/// The names of numbers that rise do so in the order of octets.
pub fn names_rise()
    ensures { (one other : List ℕ) (m n : ℕ) → IsNameOf one m → IsNameOf other n → m < n
        → ComesBefore one other }
{}

/// After any events, the segment at the place of the mark, among any names that a crash may leave, has all lines from
/// its first up to the mark; or it begins right after the mark.
pub fn place_holds()
    ensures { (events : List Event) (state : State) → Runs start events state
        → (left : List ℕ) → IsLeft state left
        → (place : SegmentPlace) → IsPlaceOf left state.mark place
        → Holds place.first state.mark state.named }
{}

/// After any events, and among any names that a crash may leave, there is a place of the mark.
#[tactic(auto, using(crate::specs::StopLaws::place_found))]
pub fn place_found()
    ensures { (events : List Event) (state : State) → Runs start events state
        → (left : List ℕ) → IsLeft state left
        → (answer : Option SegmentPlace) → IfSome answer (IsPlaceOf left state.mark)
        → IfNone answer ((first : ℕ) → Contains left first → state.mark + 1 < first)
        → IsSomeAnd answer (λ place. Holds place.first state.mark state.named
        × IsPlaceOf left state.mark place) }
{}

/// The segments that begin before the one at the mark's place may be removed, if the name of that one is sure.
#[tactic(auto, using(crate::specs::StopLaws::before_may_go))]
pub fn before_may_go()
    ensures { (state : State) (left : List ℕ) (place : SegmentPlace)
        → IsPlaceOf left state.mark place → Contains state.sure place.first
        → (other : ℕ) → IsBefore left place.first other → IsAllowed state (Remove other) }
{}

/// A segment that may be removed has no line above the mark.
pub fn removed_is_done()
    ensures { (events : List Event) (state : State) → Runs start events state
        → (first : ℕ) → IsAllowed state (Remove first)
        → (line : ℕ) → Holds first line state.named → line ≤ state.mark }
{}
