// What the lexer looks into: a text, with the classes of the bytes and the switches of the text's edition.
ghost use Rattle.text.specs.Internal.{ClassTable};

use text::switches::Switches;

// The table is lent, as it would else be copied with each scanner.
#[derive(Clone, Copy)]
pub(crate) struct Scanner<'a> {
    pub(crate) classes: &'a [u8; 256],
    pub(crate) sw: Switches,
    pub(crate) text: &'a [u8],
    ghost table: { ClassTable classes.now },
}
