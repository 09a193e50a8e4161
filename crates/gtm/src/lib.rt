// The published table of the GTM's longitudinal model. What `cumulus` has too is called from C by a name for each: here it is one call of what
// serves every model.
#![tactic(auto)]

ghost use Rattle.std.specs.Prelude.{◌≡◌};
ghost use Rattle.layout.specs.Shape.{gtm};
ghost use Rattle.layout.specs.Publishing.{publish_number, publish_output};
ghost use Rattle.layout.specs.Reading.{readings, read_number, read_output};
ghost use Rattle.layout.specs.Refusals.{given_back};
ghost use Rattle.layout.specs.Moving.{move_number, move_output};
ghost use Rattle.gtm_page.specs.Published.{published};

use layout::Model;
use layout::gtm_longitudinal::{TABLE, VARIABLES};
use layout::refusals::Refused;
use tables::reading::read_known;
use tables::soundness::refusal_into;

// In units of 10^-17, for readings in milliradians: the limits, and for each coefficient two groups, each with a row for each total degree.
const PUBLISHED: [i64; TABLE] = [
    // the limits of alpha with the cut, then of eta
    -150,
    290,
    1_000,
    -400,
    400,
    // lift: low, alpha and eta
    1_700_000_000_000_000,
    523_700_000_000_000,
    52_100_000_000_000,
    191_300_000_000,
    -41_600_000_000,
    8_900_000_000,
    -3_000_900_000,
    3_900_000,
    -29_300_000,
    -47_900_000,
    // lift: high, alpha and eta
    27_900_000_000_000_000,
    325_400_000_000_000,
    52_100_000_000_000,
    -330_700_000_000,
    -41_600_000_000,
    8_900_000_000,
    75_900_000,
    3_900_000,
    -29_300_000,
    -47_900_000,
    // drag: low, alpha and eta
    3_700_000_000_000_000,
    -12_200_000_000_000,
    11_200_000_000_000,
    240_400_000_000,
    18_300_000_000,
    -6_900_000_000,
    389_500_000,
    -4_300_000,
    -7_000_000,
    -62_800_000,
    // drag: high, alpha and eta
    -16_200_000_000_000_000,
    141_500_000_000_000,
    11_200_000_000_000,
    75_900_000_000,
    18_300_000_000,
    -6_900_000_000,
    -53_900_000,
    -4_300_000,
    -7_000_000,
    -62_800_000,
    // pitching moment: low, alpha and eta
    13_100_000_000_000_000,
    -131_000_000_000_000,
    -196_800_000_000_000,
    806_500_000_000,
    136_500_000_000,
    -41_500_000_000,
    -3_254_300_000,
    -14_400_000,
    94_800_000,
    135_600_000,
    // pitching moment: high, alpha and eta
    15_800_000_000_000_000,
    -229_100_000_000_000,
    -196_800_000_000_000,
    189_400_000_000,
    136_500_000_000,
    -41_500_000_000,
    -76_400_000,
    -14_400_000,
    94_800_000,
    135_600_000,
];

// Writes the table to `out`, or refuses where `out` has another length and leaves it as it was.
pub fn publish(out: &mut [i64]) -> Result<(), Refused>
    ensures number { given_back result ≡ publish_number published out.old }
    ensures output { out.new ≡ publish_output published out.old }
{
    tables::publishing::publish(&PUBLISHED, out)
}

// Reads lift, drag and pitching moment of a table at a state of two whole milliradians, alpha and eta, into `out`, or refuses and leaves `out` as it was.
pub fn read(table: &[i64], state: [i64; VARIABLES], out: &mut [i64]) -> Result<(), Refused>
    ensures number { given_back result ≡ read_number gtm table.now (readings state) out.old }
    ensures output { out.new ≡ read_output gtm table.now (readings state) out.old }
{
    let [alpha, eta] = state;
    let known = refusal_into(Model::Gtm, table, out.len());
    read_known(Model::Gtm, table, known, [alpha, eta, 0, 0, 0], out)
}

// Writes the table with the zero of one variable, alpha (0) or eta (1), moved by `shift` into `out`, or refuses and leaves `out` as it was. The moved
// table answers at a reading less `shift` what this one answers at the reading.
pub fn move_datum(
    table: &[i64],
    variable: usize,
    shift: i64,
    out: &mut [i64],
) -> Result<(), Refused>
    ensures number { given_back result ≡ move_number gtm table.now variable shift out.old }
    ensures output { out.new ≡ move_output gtm table.now variable shift out.old }
{
    moving::move_datum(Model::Gtm, table, variable, shift, out)
}
