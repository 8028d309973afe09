// The walk over a body's words: what a word is, what is asked of the name before it, and the state behind it.
ghost use Rattle.std.specs.Prelude.{◌≡◌, ◌<◌};
ghost use Rattle.allow.specs.declared.State.TheVariants as behind;
ghost use Rattle.allow.specs.Steps.{sort_number, ask_number, state_number, sort_code, ask_code, passed_code, next_code};

use crate::{Asked, Sort, State};
use words::kinds;

// What a word is, by its kind.
#[tactic(auto, unfolding(crate::specs::Steps::sort_code))]
pub fn sort_of(kind: u8) -> Sort
    ensures { sort_number result ≡ sort_code kind }
{
    match kind {
        kinds::NAME => Sort::Name,
        kinds::RAISE | kinds::LOWER | kinds::INVERT => Sort::Changes,
        kinds::BECOMES => Sort::Becomes,
        kinds::LEFT => Sort::Index,
        kinds::OPEN => Sort::Opens,
        kinds::CLOSE => Sort::Closes,
        kinds::ENDPROC => Sort::Last,
        _ => Sort::Other,
    }
}

// What is asked of the name before such a word.
#[tactic(auto, unfolding(crate::specs::Steps::ask_code))]
pub fn asked(state: State, sort: Sort) -> Asked
    ensures { ask_number result ≡ ask_code (state_number state) (sort_number sort) }
{
    match (state, sort) {
        (State::Named, Sort::Becomes | Sort::Index) | (State::Changed, Sort::Index) => Asked::Name,
        (State::Changed, _) => Asked::NameOrBit,
        _ => Asked::Nothing,
    }
}

// The state behind a word in the parentheses of a call, where so many are open inside them.
#[tactic(auto, unfolding(crate::specs::Steps::passed_code))]
fn passed(inner: u32, sort: Sort) -> State
    requires { state_number (behind.Call inner) < 100000 }
    ensures { state_number result ≡ passed_code (state_number (behind.Call inner)) (sort_number sort) }
{
    match sort {
        Sort::Opens => State::Call(inner + 1),
        Sort::Closes if inner == 0 => State::Nothing,
        Sort::Closes => State::Call(inner - 1),
        _ => State::Call(inner),
    }
}

// The state behind such a word.
#[tactic(auto, unfolding(crate::specs::Steps::next_code))]
pub fn next(state: State, sort: Sort) -> State
    requires { state_number state < 100000 }
    ensures { state_number result ≡ next_code (state_number state) (sort_number sort) }
{
    match (state, sort) {
        (State::Call(inner), _) => passed(inner, sort),
        (State::Changing, _) => State::Opened,
        (State::Opened, _) => State::Changed,
        (_, Sort::Name) => State::Named,
        (_, Sort::Changes) => State::Changing,
        (State::Named, Sort::Opens) => State::Call(0),
        _ => State::Nothing,
    }
}
