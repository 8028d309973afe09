// What a declared name adds to the marks and to the entries.
ghost use Rattle.std.specs.Prelude.{◌≡◌, ◌+◌, ◌-◌, ◌*◌, ◌%◌, ◌^◌, ◌<◌, ◌≤◌, min, true, false, length, if◌then◌else◌, nat_eq, nat_lt};
ghost use Rattle.words.specs.Runs.{part};
ghost use Rattle.names.specs.Look.{put_entry};
ghost use Rattle.names.specs.Enter.{kind_number, cap, noted, crowded, bad_width, number_for, start_value, sizes_at, put, start_marks};
ghost use Rattle.names.specs.Came.{kept_of};

use crate::{Item, Kind, Marks, look};

// Before the first name, where the outputs take so many bits.
#[tactic(auto, unfolding(crate::specs::Enter::start_marks))]
pub fn start_marks(low: u8) -> Marks
    ensures { (result ≡ start_marks low) × (result.names ≡ 0) }
{
    Marks {
        six: 65535,
        nine: 65535,
        names: 0,
        inputs: 0,
        outputs: 0,
        low,
        bits: 0,
        word: 0,
    }
}

// A sum up to 255.
fn sum(a: u8, b: u16) -> u8
    ensures { result ≡ cap (a + b) }
{
    u16::from(a).saturating_add(b).min(255) as u8
}

// One more where the kind is this one.
pub fn counted(n: u8, kind: Kind, this: Kind) -> u8
    ensures { result ≡ (if nat_eq (kind_number kind) (kind_number this) then cap (n + 1) else n) }
{
    if kind == this { n.saturating_add(1) } else { n }
}

// The least place, with p where there is a fault.
pub fn place_if(on: bool, p: u16, old: u16) -> u16
    ensures { result ≡ noted on p old }
{
    if on { old.min(p) } else { old }
}

// An input or an output too many.
#[tactic(auto, unfolding(crate::specs::Enter::crowded))]
fn too_many(kind: Kind, ins: u8, outs: u8) -> bool
    ensures { result ≡ crowded (kind_number kind) ins outs }
{
    match kind {
        Kind::Input => 6 <= ins,
        Kind::Output => 16 <= outs,
        _ => false,
    }
}

// "width 1 to 16"
#[tactic(auto, unfolding(crate::specs::Enter::bad_width))]
fn bad_width(kind: Kind, w: u16) -> bool
    ensures { result ≡ bad_width (kind_number kind) w }
{
    matches!(kind, Kind::Integer) && !(1..=16).contains(&w)
}

// The number or the lowest bit of the next name of a kind.
#[tactic(auto, unfolding(crate::specs::Enter::number_for))]
fn number_for(kind: Kind, m: Marks) -> u8
    ensures { result ≡ number_for (kind_number kind) m }
{
    match kind {
        Kind::Input => m.inputs,
        Kind::Output => m.outputs,
        _ => m.low,
    }
}

// The lowest bit behind a name that is no input and no output.
fn low_after(kind: Kind, low: u8, w: u16) -> u8
    ensures { result ≡ (if nat_lt 1 (kind_number kind) then cap (low + w) else low) }
{
    match kind {
        Kind::Input | Kind::Output => low,
        _ => sum(low, w),
    }
}

// The low bits of an initial value, at their place in the value word.
#[tactic(auto, unfolding(crate::specs::Enter::start_value))]
fn start_value(v: u16, w: u16, at: u8) -> u32
    ensures { result ≡ start_value v w at }
{
    let bits = u32::from(w);
    let low = u32::from(at);
    if low + bits > 32 {
        return 0;
    }
    let x = u64::from(v) % 2u64.pow(bits);
    let y = x * 2u64.pow(low);
    y as u32
}

// A name's length.
pub fn length_of(a: u16, b: u16) -> u8
    ensures { result ≡ min (b - a) 255 }
{
    b.saturating_sub(a).min(255) as u8
}

// The least place of fault 9: bits count at the name, a bad width at its number.
#[tactic(auto, unfolding(crate::specs::Enter::sizes_at))]
fn sizes(kind: Kind, p: u16, w: u16, q: u16, m: Marks) -> u16
    ensures { result ≡ sizes_at (kind_number kind) p w q m }
{
    let a = place_if(too_many(kind, m.inputs, m.outputs), p, m.nine);
    let b = place_if(32 < u32::from(m.bits) + u32::from(w), p, a);
    place_if(bad_width(kind, w), q, b)
}

// Entry i: the place with the kind above it, the length, and the number.
// `kind` stays a number: a procedure's row, as `put_row` of decls/specs/Held has it, is an entry with 0 there.
pub fn put_entry(t: &mut [u8], i: u16, p: u16, kind: u8, len: u8, number: u8)
    requires { (i * 4 + 4 ≤ length t.old) × (p < 8192) × (kind < 4) }
    ensures { t.new ≡ put_entry t.old i p kind len number }
{
    let b = usize::from(i) * 4;
    let [low, high] = p.to_le_bytes();
    t[b..b + 4].copy_from_slice(&[low, high + kind * 32, len, number]);
}

// The marks behind a name.
fn marked(m: Marks, i: Item, again: bool, at: u8) -> Marks
    requires { m.names < 4096 }
    ensures { result ≡ record {
      six = noted again i.place m.six;
      nine = sizes_at (kind_number i.kind) i.place i.width i.number m;
      names = m.names + 1;
      inputs = (if nat_eq (kind_number i.kind) 0 then cap (m.inputs + 1) else m.inputs);
      outputs = (if nat_eq (kind_number i.kind) 1 then cap (m.outputs + 1) else m.outputs);
      low = (if nat_lt 1 (kind_number i.kind) then cap (m.low + i.width) else m.low);
      bits = cap (m.bits + i.width);
      word = (m.word + start_value i.value i.width at) % 4294967296;
    } }
{
    Marks {
        six: place_if(again, i.place, m.six),
        nine: sizes(i.kind, i.place, i.width, i.number, m),
        names: m.names + 1,
        inputs: counted(m.inputs, i.kind, Kind::Input),
        outputs: counted(m.outputs, i.kind, Kind::Output),
        low: low_after(i.kind, m.low, i.width),
        bits: sum(m.bits, i.width),
        word: m.word.wrapping_add(start_value(i.value, i.width, at)),
    }
}

// A name entered.
#[tactic(auto, unfolding(crate::specs::Enter::put))]
pub fn entered(s: &[u8], t: &mut [u8], m: Marks, i: Item) -> Marks
    requires { (m.names * 4 + 4 ≤ length t.old) × (m.names < 4096) × (i.place < 8192) × (kind_number i.kind < 4) }
    ensures { kept_of result t.new ≡ put s.now (kind_number i.kind) i.place (min (i.next - i.place) 255) (part s.now i.place i.next) i.width i.number i.value m t.old }
{
    let again = look::known(look::find(s, t, m.names, i.place, i.next));
    let at = number_for(i.kind, m);
    put_entry(
        t,
        m.names,
        i.place,
        i.kind as u8,
        length_of(i.place, i.next),
        at,
    );
    marked(m, i, again, at)
}
