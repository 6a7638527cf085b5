// What an edition of Duper fixes: the record that every definition takes.
ghost use Rattle.std.specs.Prelude.{◌≡◌};
ghost use Rattle.text.specs.Switches.{present_edition};

#[derive(Clone, Copy)]
pub struct Switches {
    // Whether `"` and `b"` may hold a bare 09.
    pub quoted_tab: bool,
    // Whether `"` and `b"` may hold a bare 0A.
    pub quoted_feed: bool,
    // Whether raw strings may hold a bare 0D; 0A stands in both editions, 09 in neither.
    pub raw_return: bool,
    // Whether `\U` is an escape.
    pub long_escape: bool,
    // Whether `b64"` opens a string.
    pub base64: bool,
    // Whether `[,]` is an empty array.
    pub lone_comma: bool,
    // Whether a tick is refused with 6, "Temporal not served"; else with 3.
    pub ticks: bool,
}

// The present edition: document 01's rules.
pub fn present() -> Switches
    ensures { result ≡ present_edition }
{
    Switches {
        quoted_tab: false,
        quoted_feed: true,
        raw_return: false,
        long_escape: true,
        base64: true,
        lone_comma: true,
        ticks: true,
    }
}
