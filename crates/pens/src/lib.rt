// The pen that writes what line operations show, plain or in HTML: one operation at a time, or the bytes of a whole text. It writes as far as the page goes
// and says how far it came, so that lending it no page measures.

#![tactic(auto)]

pub mod bytes;
pub mod pen;
pub mod ready;
pub mod state;
