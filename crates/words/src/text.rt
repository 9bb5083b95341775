// Text that is cut at a separator.
ghost use Rattle.std.specs.Prelude.{◌≡◌, ◌==◌, ◌<◌, length, position, IfSome};
ghost use Rattle.std.specs.Option.{option_map};
ghost use Rattle.words.specs.Text.{behind_name, head_of, tail_of};

// The place of the first separator, if there is one.
fn first_at(text: &[u8], separator: u8) -> Option<usize>
    ensures value { result ≡ position (λ c. c == separator) text.now }
{
    text.iter().position(|&c| c == separator)
}

// What stands before the first separator, or the whole text.
pub fn head<'a>(text: &'a [u8], separator: u8) -> &'a [u8]
    ensures value { result.now ≡ head_of separator text.now }
{
    match first_at(text, separator) {
        Some(at) => &text[..at],
        None => text,
    }
}

// What stands behind the first separator, if there is one.
pub fn tail<'a>(text: &'a [u8], separator: u8) -> Option<&'a [u8]>
    ensures value { option_map (λ x. x.now) result ≡ tail_of separator text.now }
    ensures bound { IfSome result (λ t. length t.now < length text.now) }
{
    let at = first_at(text, separator)?;
    Some(&text[at + 1..])
}

// What stands before the first separator and what stands behind it, if there is one.
pub fn split_once<'a>(text: &'a [u8], separator: u8) -> Option<(&'a [u8], &'a [u8])>
    ensures before { IfSome result (λ p. p.0.now ≡ head_of separator text.now) }
    ensures behind { option_map (λ p. p.1.now) result ≡ tail_of separator text.now }
{
    let at = first_at(text, separator)?;
    Some((&text[..at], &text[at + 1..]))
}

// What stands behind a name, if the line begins with it. (`strip_prefix` with what it answers as one term: other crates call it.)
pub fn behind_name<'a>(line: &'a [u8], name: &[u8]) -> Option<&'a [u8]>
    ensures value { option_map (λ x. x.now) result ≡ behind_name name.now line.now }
{
    line.strip_prefix(name)
}
