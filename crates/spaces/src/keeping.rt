// What is done with the spaces themselves.
use super::drawing::checksum;
use super::reasons::Reason;
use super::rooms::{Space, Spaces};
use commands::Keeping;
use texts::Answers;

fn show(space: &Space, place: u64, count: u64, out: &mut Answers) -> Result<(), Reason> {
    let rest = space.numbers().get(place as usize..);
    let shown = rest.and_then(|rest| rest.get(..count as usize));
    out.put_numbers(shown.ok_or(Reason::NoPlace)?);
    Ok(())
}

fn sum(space: &Space, out: &mut Answers) {
    let numbers = space.numbers();
    let count = numbers.len();
    let sum = checksum(numbers);
    out.put(format_args!("{count} sum {sum}"));
}

#[inline(never)]
pub fn keep(keeping: Keeping, spaces: &mut Spaces, out: &mut Answers) -> Result<(), Reason> {
    match keeping {
        Keeping::Length { space, count } => spaces.get_mut(space)?.set_length(count)?,
        Keeping::Set {
            space,
            place,
            number,
        } => spaces.get_mut(space)?.set(place, number)?,
        Keeping::Fill {
            space,
            place,
            step,
            size,
            seed,
        } => spaces.get_mut(space)?.fill(place, step, size, seed)?,
        Keeping::Copy { space, into } => {
            let kept = *spaces.get(space)?;
            *spaces.get_mut(into)? = kept;
        }
        Keeping::Show {
            space,
            place,
            count,
        } => return show(spaces.get(space)?, place, count, out),
        Keeping::Sum { space } => {
            sum(spaces.get(space)?, out);
            return Ok(());
        }
    }
    out.put("ok");
    Ok(())
}
