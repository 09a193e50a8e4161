// The operations for hosts that hold tables as numbers. The crate clochecloak_c exports each to C, under its name here: so a refusal is given back
// as its number, and each model has functions of its own.
#![tactic(auto)]

ghost use Rattle.std.specs.Prelude.{◌≡◌, [], ◌∷◌};
ghost use Rattle.layout.specs.Shape.{cumulus, gtm};
ghost use Rattle.layout.specs.Reading.{readings, read_number, read_output};
ghost use Rattle.layout.specs.Many.{many_number, many_numbers, many_output};
ghost use Rattle.layout.specs.Moving.{move_number, move_output};
ghost use Rattle.layout.specs.Publishing.{publish_number, publish_output};
ghost use Rattle.cumulus_page.specs.Published.{published};
ghost use Rattle.gtm_page.specs.Published.{published as gtm_published};
ghost use Rattle.microradians.specs.Answer.{fine_number, fine_output};
ghost use Rattle.door.specs.Door.{floats, door_answer};

use door::Answer;
use layout::refusals::given_back;

pub fn clochecloak_publish(out: &mut [i64]) -> u64
    ensures number { result ≡ publish_number published out.old }
    ensures output { out.new ≡ publish_output published out.old }
{
    given_back(cumulus::publish(out))
}

pub fn clochecloak_read(
    table: &[i64],
    alpha: i64,
    beta: i64,
    xi: i64,
    eta: i64,
    zeta: i64,
    out: &mut [i64],
) -> u64
    ensures number { result ≡ read_number cumulus table.now (readings (alpha ∷ beta ∷ xi ∷ eta ∷ zeta ∷ [])) out.old }
    ensures output { out.new ≡ read_output cumulus table.now (readings (alpha ∷ beta ∷ xi ∷ eta ∷ zeta ∷ [])) out.old }
{
    let state = [alpha, beta, xi, eta, zeta];
    given_back(cumulus::read(table, state, out))
}

pub fn clochecloak_read_many(
    table: &[i64],
    states: &[i64],
    numbers: &mut [u64],
    out: &mut [i64],
) -> u64
    ensures number { result ≡ many_number cumulus table.now states.now numbers.old out.old }
    ensures numbers { numbers.new ≡ many_numbers cumulus table.now states.now numbers.old out.old }
    ensures output { out.new ≡ many_output cumulus table.now states.now numbers.old out.old }
{
    given_back(cumulus::read_many(table, states, numbers, out))
}

pub fn clochecloak_read_microradians(
    alpha: i64,
    beta: i64,
    xi: i64,
    eta: i64,
    zeta: i64,
    out: &mut [i64],
) -> u64
    ensures number { result ≡ fine_number (readings (alpha ∷ beta ∷ xi ∷ eta ∷ zeta ∷ [])) out.old }
    ensures output { out.new ≡ fine_output (readings (alpha ∷ beta ∷ xi ∷ eta ∷ zeta ∷ [])) out.old }
{
    given_back(microradians::read([alpha, beta, xi, eta, zeta], out))
}

pub fn clochecloak_move(table: &[i64], variable: usize, shift: i64, out: &mut [i64]) -> u64
    ensures number { result ≡ move_number cumulus table.now variable shift out.old }
    ensures output { out.new ≡ move_output cumulus table.now variable shift out.old }
{
    given_back(cumulus::move_datum(table, variable, shift, out))
}

pub fn clochecloak_read_floats(
    table: &[i64],
    alpha: f64,
    beta: f64,
    xi: f64,
    eta: f64,
    zeta: f64,
) -> Answer
    ensures { result ≡ door_answer table.now (floats (alpha ∷ beta ∷ xi ∷ eta ∷ zeta ∷ [])) }
{
    let readings = [alpha, beta, xi, eta, zeta];
    door::read_floats(table, readings)
}

// The GTM's longitudinal model: another table, with alpha and eta for its variables.
pub fn clochecloak_gtm_publish(out: &mut [i64]) -> u64
    ensures number { result ≡ publish_number gtm_published out.old }
    ensures output { out.new ≡ publish_output gtm_published out.old }
{
    given_back(gtm::publish(out))
}

pub fn clochecloak_gtm_read(table: &[i64], alpha: i64, eta: i64, out: &mut [i64]) -> u64
    ensures number { result ≡ read_number gtm table.now (readings (alpha ∷ eta ∷ [])) out.old }
    ensures output { out.new ≡ read_output gtm table.now (readings (alpha ∷ eta ∷ [])) out.old }
{
    given_back(gtm::read(table, [alpha, eta], out))
}

pub fn clochecloak_gtm_move(table: &[i64], variable: usize, shift: i64, out: &mut [i64]) -> u64
    ensures number { result ≡ move_number gtm table.now variable shift out.old }
    ensures output { out.new ≡ move_output gtm table.now variable shift out.old }
{
    given_back(gtm::move_datum(table, variable, shift, out))
}
