// The lines of a configuration: a key and its value.
ghost use Rattle.std.specs.Prelude.{◌≡◌, ◌++◌, ◌∷◌, [], OnOk, codes, decimal};
ghost use Rattle.std.specs.List.{list_all};
ghost use Rattle.feed_conf.specs.Lexemes.{is_word_octet};
ghost use Rattle.conf_text.specs.ConfText.{fraction_value, is_word, line, switch_value, text_value};

use std::alloc::AllocError;

/// The indent of the settings of a peer.
pub(crate) const INSIDE: &[u8] = b"    ";

/// Adds a line with a key and its value, after this indent.
///
/// # Errors
/// Memory was refused.
fn add_line(out: &mut Vec<u8>, indent: &[u8], key: &[u8], value: &[u8]) -> Result<(), AllocError>
    ensures { OnOk result (out.new.items
        ≡ out.old.items ++ line indent.now key.now value.now) }
{
    out.extend_from_slice(indent)?;
    out.extend_from_slice(key)?;
    out.extend_from_slice(b": ")?;
    out.extend_from_slice(value)?;
    out.extend_from_slice(b"\n")
}

fn add_begin(out: &mut Vec<u8>, indent: &[u8], key: &[u8]) -> Result<(), AllocError>
    ensures { OnOk result (out.new.items
        ≡ out.old.items ++ (indent.now ++ key.now ++ codes ": ")) }
{
    out.extend_from_slice(indent)?;
    out.extend_from_slice(key)?;
    out.extend_from_slice(b": ")
}

fn is_word_octet(octet: u8) -> bool
    ensures { result ≡ is_word_octet octet }
{
    let is_blank = octet == b' ' || octet == b'\t' || octet == b'\r';
    let is_mark = octet == b'"' || octet == b'#' || octet == b'{' || octet == b'}';
    !(is_blank || is_mark)
}

// Whether a text may stand without quotes.
fn is_word(octets: &[u8]) -> bool
    ensures { result ≡ is_word octets.now }
{
    !octets.is_empty() && are_word_octets(octets)
}

fn are_word_octets(octets: &[u8]) -> bool
    ensures { result ≡ list_all is_word_octet octets.now }
{
    octets.iter().all(|octet| is_word_octet(*octet))
}

/// Adds a line with a text, in quotes if it needs them.
///
/// # Errors
/// Memory was refused.
pub(crate) fn add_text(
    out: &mut Vec<u8>,
    indent: &[u8],
    key: &[u8],
    text: &[u8],
) -> Result<(), AllocError>
    ensures { OnOk result (out.new.items
        ≡ out.old.items ++ line indent.now key.now (text_value text.now)) }
{
    if is_word(text) {
        add_line(out, indent, key, text)
    } else {
        add_quoted(out, indent, key, text)
    }
}

fn add_quoted(out: &mut Vec<u8>, indent: &[u8], key: &[u8], text: &[u8]) -> Result<(), AllocError>
    ensures { OnOk result (out.new.items
        ≡ out.old.items ++ line indent.now key.now (34 ∷ (text.now ++ 34 ∷ []))) }
{
    add_begin(out, indent, key)?;
    out.extend_from_slice(b"\"")?;
    out.extend_from_slice(text)?;
    out.extend_from_slice(b"\"\n")
}

/// Adds a line with a number.
///
/// # Errors
/// Memory was refused.
pub(crate) fn add_number(
    out: &mut Vec<u8>,
    indent: &[u8],
    key: &[u8],
    number: u64,
) -> Result<(), AllocError>
    ensures { OnOk result (out.new.items
        ≡ out.old.items ++ line indent.now key.now (decimal number)) }
{
    add_line(
        out,
        indent,
        key,
        itoa::Buffer::new().format(number).as_bytes(),
    )
}

/// Adds a line with a boolean.
///
/// # Errors
/// Memory was refused.
pub(crate) fn add_switch(
    out: &mut Vec<u8>,
    indent: &[u8],
    key: &[u8],
    on: bool,
) -> Result<(), AllocError>
    ensures { OnOk result (out.new.items
        ≡ out.old.items ++ line indent.now key.now (switch_value on)) }
{
    add_line(out, indent, key, switch_value(on))
}

fn switch_value(on: bool) -> &'static [u8]
    ensures { result.now ≡ switch_value on }
{
    if on { b"true" } else { b"false" }
}

/// Adds a line with hundredths, as a fraction with two decimals.
///
/// # Errors
/// Memory was refused.
pub(crate) fn add_fraction(
    out: &mut Vec<u8>,
    indent: &[u8],
    key: &[u8],
    hundredths: u64,
) -> Result<(), AllocError>
    ensures { OnOk result (out.new.items
        ≡ out.old.items ++ line indent.now key.now (fraction_value hundredths)) }
{
    add_begin(out, indent, key)?;
    add_fraction_value(out, hundredths)?;
    out.extend_from_slice(b"\n")
}

fn add_fraction_value(out: &mut Vec<u8>, hundredths: u64) -> Result<(), AllocError>
    ensures { OnOk result (out.new.items ≡ out.old.items ++ fraction_value hundredths) }
{
    add_decimal(out, hundredths / 100)?;
    out.extend_from_slice(b".")?;
    add_decimal(out, hundredths / 10 % 10)?;
    add_decimal(out, hundredths % 10)
}

fn add_decimal(out: &mut Vec<u8>, number: u64) -> Result<(), AllocError>
    ensures { OnOk result (out.new.items ≡ out.old.items ++ decimal number) }
{
    out.extend_from_slice(itoa::Buffer::new().format(number).as_bytes())
}
