// The words of a line, which spaces part.
#![tactic(auto)]

ghost use Rattle.std.specs.Prelude.{◌≡◌, ◌==◌, not, [], ◌∷◌, ltb, length, position, IfSome, MatchOption};
ghost use Rattle.std.specs.Option.{option_map};
ghost use Rattle.std.specs.Str.Iter.{HasSubslice};
ghost use Rattle.words.specs.Words.{words, word_at};

// Where the first byte stands that is no space.
fn first_other(line: &[u8]) -> Option<usize>
    ensures { result ≡ position (λ b. not (b == 32)) line.now }
{
    line.iter().position(|byte| *byte != b' ')
}

fn first_space(line: &[u8]) -> Option<usize>
    ensures { result ≡ position (λ b. b == 32) line.now }
{
    line.iter().position(|byte| *byte == b' ')
}

// The first word of a line, and what stands behind it. A run of spaces is passed at once: as a part between each two spaces, which the chain of `split`,
// `filter` and `nth` makes of it, a line with many took twice as long.
fn first_word(line: &[u8]) -> Option<(&[u8], &[u8])>
    ensures { MatchOption result (words line.now ≡ []) (λ parts. words line.now ≡ parts.0.now ∷ words parts.1.now) }
{
    let start = first_other(line)?;
    let rest = &line[start..];
    let end = first_space(rest).unwrap_or(rest.len());
    Some(rest.split_at(end))
}

// A word by its place, from 0 on, where there are so many.
pub fn word_at(line: &[u8], k: usize) -> Option<&[u8]>
    ensures word { option_map (λ word. word.now) result ≡ word_at line.now k }
    ensures part { IfSome result (λ word. HasSubslice line.now word.now) }
{
    let mut rest = line;
    for _ in 0..k {
        let (_, behind) = first_word(rest)?;
        rest = behind;
    }
    let (word, _) = first_word(rest)?;
    Some(word)
}

// Whether there are more words than so many.
pub fn has_word(line: &[u8], k: usize) -> bool
    ensures { result ≡ ltb k (length (words line.now)) }
{
    word_at(line, k).is_some()
}
