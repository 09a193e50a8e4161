// What the tables of each model look like, by the numbers of `layout`. Who knows a model asks here; nobody else has cases over the models.
#![tactic(auto)]

ghost use Rattle.std.specs.Prelude.{◌≡◌, ◌≤◌, ◌<◌, length};
ghost use Rattle.polynomials.specs.Limits.{highest_degree};
ghost use Rattle.polynomials.specs.Order.{size};
ghost use Rattle.layout.specs.Shape.{shape, kind_at, fine_cuts, limits_length, block_length, block_start, table_length, cumulus, gtm};
ghost use Rattle.layout.specs.Refusals.{place, refusal_number, outside};

use layout::refusals::{Angle, Refused};
use layout::{Kind, Model, cumulus_one, gtm_longitudinal};

// A constant of a model's tables, which both models have by the same name. They are two modules and no struct for each, since lengths of arrays are
// made of them.
macro_rules! of_model {
    ($model:expr, $name:ident) => {
        match $model {
            Model::Cumulus => cumulus_one::$name,
            Model::Gtm => gtm_longitudinal::$name,
        }
    };
}

// How many variables there are.
pub fn variables(model: Model) -> usize
    ensures { result ≡ (shape model).variables }
{
    of_model!(model, VARIABLES)
}

// How many blocks a table has.
pub fn blocks(model: Model) -> usize
    ensures { result ≡ (shape model).blocks }
{
    of_model!(model, BLOCKS)
}

// How many groups a block has.
pub fn groups(model: Model) -> usize
    ensures { result ≡ length (shape model).kinds }
{
    of_model!(model, GROUPS)
}

// How many fine cuts variable 0 has: one, or none.
pub fn fine_cuts(model: Model) -> usize
    ensures { result ≡ fine_cuts (shape model) }
{
    of_model!(model, FINE_CUTS)
}

// Whether it has one.
pub fn has_fine_cut(model: Model) -> bool
    ensures { result ≡ (shape model).has_fine_cut }
{
    fine_cuts(model) > 0
}

// How many numbers the limits are, which come first in a table.
pub fn limits(model: Model) -> usize
    ensures { result ≡ limits_length (shape model) }
{
    of_model!(model, LIMITS)
}

// How many numbers a block has.
pub fn block(model: Model) -> usize
    ensures { result ≡ block_length (shape model) }
{
    of_model!(model, BLOCK)
}

// How many numbers a table has.
pub fn table(model: Model) -> usize
    ensures { result ≡ table_length (shape model) }
{
    of_model!(model, TABLE)
}

// Where a block starts.
pub fn start(model: Model, index: usize) -> usize
    requires { index < (shape model).blocks }
    ensures { result ≡ block_start (shape model) index }
{
    limits(model) + block(model) * index
}

// Which angle a variable is.
pub fn angle(model: Model, variable: usize) -> Angle
    requires { variable < (shape model).variables }
    ensures { place result ≡ (shape model).name variable }
{
    match (model, variable) {
        (_, 0) => Angle::Alpha,
        (Model::Gtm, _) => Angle::Eta,
        (_, 1) => Angle::Beta,
        (_, 2) => Angle::Xi,
        (_, 3) => Angle::Eta,
        _ => Angle::Zeta,
    }
}

// The refusal of a reading of a variable that is outside its limits.
pub fn outside(model: Model, variable: usize) -> Refused
    requires { variable < (shape model).variables }
    ensures { refusal_number result ≡ outside (shape model) variable }
{
    Refused::Outside(angle(model, variable))
}

// How many numbers a group of a kind has: of degree 0, 1 and so on, one more for each.
pub fn size(kind: Kind) -> usize
    requires { kind.degree ≤ highest_degree }
    ensures { result ≡ size kind.degree }
{
    let n = kind.degree + 1;
    n * (n + 1) / 2
}

// The groups of every block of a Cumulus One table.
fn cumulus_kind(group: usize) -> Kind
    requires { group < length cumulus.kinds }
    ensures { result ≡ kind_at cumulus group }
{
    match group {
        0 | 1 => Kind {
            u: 0,
            v: 3,
            degree: cumulus_one::PITCH_DEGREE,
        },
        2 => Kind {
            u: 1,
            v: 2,
            degree: cumulus_one::SIDE_DEGREE,
        },
        _ => Kind {
            u: 1,
            v: 4,
            degree: cumulus_one::SIDE_DEGREE,
        },
    }
}

// The groups of every block of the GTM's longitudinal table.
fn gtm_kind(group: usize) -> Kind
    requires { group < length gtm.kinds }
    ensures { result ≡ kind_at gtm group }
{
    Kind {
        u: 0,
        v: 1,
        degree: gtm_longitudinal::DEGREE,
    }
}

// A group of every block: the low one, the high one, then those that count in both pieces.
pub fn kind(model: Model, group: usize) -> Kind
    requires { group < length (shape model).kinds }
    ensures { result ≡ kind_at (shape model) group }
{
    match model {
        Model::Cumulus => cumulus_kind(group),
        Model::Gtm => gtm_kind(group),
    }
}
