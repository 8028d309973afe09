// What is noted and written of a name, by what it stands for.
ghost use Rattle.std.specs.Prelude.{◌≡◌, ◌≤◌, ◌%◌, ◌^◌, ◌-◌};
ghost use Rattle.std.proofs.Math.Option.{some};
ghost use Rattle.meaning.specs.Numbers.{input};
ghost use Rattle.meaning.specs.Names.{missing};
ghost use Rattle.meaning.specs.Kinds.{is_truth, kind_of_variable, has_bit};
ghost use Rattle.meaning.specs.Worst.{variable_worst};
ghost use Rattle.names.specs.Came.{variable_of};
ghost use Rattle.parts.specs.Sum.{kind_of, number_of, width_of, looks_of, cap};

use names::Variable;

pub fn kind_of(v: Option<Variable>) -> u8
    ensures { result ≡ kind_of (variable_of v) }
{
    match v {
        None | Some(Variable::Input(_)) => 3,
        Some(Variable::Boolean(_)) => 4,
        Some(Variable::Integer { .. }) => 5,
    }
}

pub fn number_of(v: Option<Variable>) -> u16
    ensures { result ≡ number_of (variable_of v) }
{
    match v {
        None => 0,
        Some(Variable::Input(n) | Variable::Boolean(n) | Variable::Integer { low: n, .. }) => {
            u16::from(n)
        }
    }
}

pub fn width_of(v: Option<Variable>) -> u8
    ensures { result ≡ width_of (variable_of v) % 256 }
{
    match v {
        Some(Variable::Integer { width, .. }) => (width % 256) as u8,
        _ => 0,
    }
}

fn power(w: u32) -> u32
    requires { w ≤ 31 }
    ensures { result ≡ 2 ^ w }
{
    1 << w
}

fn input_bit(i: u8) -> u8
    ensures { result ≡ looks_of (some (input i)) }
{
    if i < 8 { 1 << i } else { 0 }
}

pub fn looks_of(v: Option<Variable>) -> u8
    ensures { result ≡ looks_of (variable_of v) }
{
    match v {
        Some(Variable::Input(i)) => input_bit(i),
        _ => 0,
    }
}

pub fn unknown(v: Option<Variable>) -> bool
    ensures { result ≡ missing (variable_of v) }
{
    v.is_none()
}

pub fn truth_of(v: Option<Variable>) -> bool
    ensures { result ≡ is_truth (kind_of_variable (variable_of v)) }
{
    matches!(v, Some(Variable::Input(_) | Variable::Boolean(_)))
}

pub fn has_bit(v: Option<Variable>, j: u16) -> bool
    ensures { result ≡ has_bit (variable_of v) j }
{
    match v {
        Some(Variable::Integer { width, .. }) => j < width,
        _ => false,
    }
}

fn width_size(w: u16) -> u32
    ensures { result ≡ cap (2 ^ w - 1) }
{
    if w > 31 {
        2147483648
    } else {
        power(u32::from(w)) - 1
    }
}

pub fn size_of(v: Option<Variable>) -> u32
    ensures { result ≡ cap (variable_worst (variable_of v)) }
{
    match v {
        Some(Variable::Integer { width, .. }) => width_size(width),
        _ => 0,
    }
}
