// The names of fields.
ghost use Rattle.std.specs.Prelude.{◌≡◌, ◌≤◌, length};
ghost use Rattle.naming.specs.Words.{unit_field_name, field_name, longest_name};

use finding::named::{Field, UnitField};

#[tactic(auto, unfolding(crate::specs::Words::unit_field_name))]
pub fn unit_field_name(field: UnitField) -> &'static [u8]
    ensures name { result.now ≡ unit_field_name field }
    ensures few { length result.now ≤ longest_name }
{
    match field {
        UnitField::Number => b"number",
        UnitField::Class => b"class",
        UnitField::Coincide => b"coincide",
        UnitField::Nominated => b"nominated",
        UnitField::N => b"N",
        UnitField::Pc => b"PC",
        UnitField::StepDown => b"M-",
        UnitField::StepUp => b"M+",
        UnitField::Made => b"margins made",
        UnitField::Lower => b"lower end",
        UnitField::Upper => b"upper end",
    }
}

#[tactic(auto, unfolding(crate::specs::Words::field_name))]
pub fn field_name(field: Field) -> &'static [u8]
    ensures name { result.now ≡ field_name field }
    ensures few { length result.now ≤ longest_name }
{
    match field {
        Field::Kind => b"kind",
        Field::Quarters => b"quarters",
        Field::Quarter => b"quarter",
        Field::UnitCount => b"unit count",
        Field::PositionsMade => b"positions made",
        Field::Groups => b"groups",
        Field::Unit(f) => unit_field_name(f),
    }
}
