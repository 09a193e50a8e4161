// Publishing a table.
ghost use Rattle.std.specs.Prelude.{◌≡◌};
ghost use Rattle.layout.specs.Publishing.{publish_number, publish_output};
ghost use Rattle.layout.specs.Refusals.{given_back};

use blocks::copy;
use layout::refusals::Refused;

// Writes a table to `out`, or refuses where `out` has another length and leaves it as it was.
pub fn publish(table: &[i64], out: &mut [i64]) -> Result<(), Refused>
    ensures number { given_back result ≡ publish_number table.now out.old }
    ensures output { out.new ≡ publish_output table.now out.old }
{
    if out.len() != table.len() {
        return Err(Refused::WrongOutput);
    }
    copy(table, out);
    Ok(())
}
