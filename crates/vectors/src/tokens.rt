// The tokens of a text, one after the other.
use lexer::item::{Next, next_token};

pub(crate) fn tokens(rt: &HostRuntime, text: &[u8]) {
    let sw = text::switches::present();
    let mut at = 0;
    while at <= text.len() {
        match next_token(sw, text, at) {
            Ok(Next::Token(token)) => {
                let span = token.span;
                super::show::token(rt, token.kind, &text[span.start..span.stop]);
                super::show::places(rt, span.start, span.stop);
                at = span.stop;
            }
            Ok(Next::End(place)) => {
                super::show::end(rt, place);
                return;
            }
            Err(refusal) => {
                super::show::refused(rt, refusal.reason.number(), refusal.place);
                return;
            }
        }
    }
}
