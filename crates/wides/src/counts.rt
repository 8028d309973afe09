// Activities, actuals and words by the numbers of their kinds.
ghost use Rattle.std.specs.Prelude.{◌≡◌, ◌+◌, ◌<◌, max, min};
ghost use Rattle.wides.specs.Fill.{ends_list, calls_by, closes_by, open_by, begun_by};

use words::kinds;

// A branch more, up to nine activities.
pub fn added(a: u8, b: u8) -> u8
    ensures { result ≡ min (a + b) 9 }
{
    a.saturating_add(b).min(9)
}

// Whether a word ends a list of statements: `||`, `endparallel`, `endproc`, or the end of the words.
#[tactic(auto, unfolding(crate::specs::Fill::ends_list))]
pub fn ends(kind: u8) -> bool
    ensures { result ≡ ends_list kind }
{
    matches!(kind, kinds::BARS | kinds::ENDPARALLEL | kinds::ENDPROC) || kind > kinds::ENDCOMPRESS
}

// Whether a word and the next are a name and `(`.
#[tactic(auto, unfolding(crate::specs::Fill::calls_by))]
pub fn calls(kind: u8, next: u8) -> bool
    ensures { result ≡ calls_by kind next }
{
    kind == kinds::NAME && next == kinds::OPEN
}

// Whether a word ends the parentheses of a call, in which so many are open.
#[tactic(auto, unfolding(crate::specs::Fill::closes_by))]
pub fn closes(kind: u8, deep: u16) -> bool
    ensures { result ≡ closes_by kind deep }
{
    kind == kinds::CLOSE && deep == 0
}

// How many parentheses are open behind a word.
#[tactic(auto, unfolding(crate::specs::Fill::open_by))]
pub fn within(kind: u8, deep: u16) -> u16
    requires { deep < 65535 }
    ensures { result ≡ open_by kind deep }
{
    match kind {
        kinds::OPEN => deep + 1,
        kinds::CLOSE => deep.saturating_sub(1),
        _ => deep,
    }
}

// How many actuals are begun with a word: one more behind a comma, and one at least.
#[tactic(auto, unfolding(crate::specs::Fill::begun_by))]
pub fn begun(kind: u8, deep: u16, count: u16) -> u16
    requires { count < 65535 }
    ensures { result ≡ begun_by kind deep count }
{
    if kind == kinds::COMMA && deep == 0 {
        count + 1
    } else {
        count.max(1)
    }
}
