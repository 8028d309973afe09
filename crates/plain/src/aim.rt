// What a statement changes, by what its name stands for.
ghost use Rattle.std.specs.Prelude.{◌≡◌};
ghost use Rattle.plain.specs.Aim.{name_aim, whole_aim, part_aim};

use frames::Meant;

// The variable with the name from a to b, or a bit of it; a name without bytes is unknown. No Option for the name: what stands for none is looked up like the others, and noted as unknown (P8).
#[derive(Clone, Copy)]
pub struct Aim {
    pub a: u16,
    pub b: u16,
    pub bit: Option<u16>,
}

// Where a name is assigned.
pub fn name_of(v: Meant) -> Aim
    ensures { result ≡ name_aim v }
{
    match v {
        Meant::Name { a, b } => Aim { a, b, bit: None },
        Meant::Bit { .. } | Meant::Neither => Aim {
            a: 0,
            b: 0,
            bit: None,
        },
    }
}

// Where it is raised, lowered or inverted.
pub fn whole_of(v: Meant) -> Aim
    ensures { result ≡ whole_aim v }
{
    match v {
        Meant::Name { a, b } => Aim { a, b, bit: None },
        Meant::Bit { a, b, j } => Aim { a, b, bit: Some(j) },
        Meant::Neither => Aim {
            a: 0,
            b: 0,
            bit: None,
        },
    }
}

// .. or bit k of it.
pub fn part_of(v: Meant, k: u16) -> Aim
    ensures { result ≡ part_aim v k }
{
    match v {
        Meant::Name { a, b } => Aim { a, b, bit: Some(k) },
        Meant::Bit { .. } | Meant::Neither => Aim {
            a: 0,
            b: 0,
            bit: Some(k),
        },
    }
}
