// The frames of pages: what stands before and behind the items. The strings are the original's, the style element's with its scope put in.

#![tactic(auto, unfolding(crate::specs::Kinds::form_of, crate::specs::Kinds::framing_of))]

ghost use Rattle.std.specs.Prelude.{◌≡◌};
ghost use Rattle.writing.specs.Written.{Put};
ghost use Rattle.pages.specs.Kinds.{form_of, framing_of, head, foot};

use pens::state::Form;
use writing::Page;

// One name for each page: a form beside a framing would make a plain page in a frame, which there is not.
#[derive(Debug, Clone, Copy, PartialEq, Eq)]
pub enum Kind {
    Plain,
    Body,
    Document,
    StrictBody,
    StrictDocument,
}

// What stands around the items, where anything does: the body's element, or the document and that element. Strict mode changes none of it.
#[derive(Debug, Clone, Copy, PartialEq, Eq)]
pub enum Framing {
    Body,
    Document,
}

const OPENING: [u8; 57] = *b"<pre class=\"spirt-90c2056d-5b38-4644-824a-b4be1c82f14d\">
";

const CLOSING: [u8; 6] = *b"</pre>";

const BEFORE_BODY: [u8; 993] = *b"<!doctype html>
<html>
<head>
<meta charset=\"utf-8\">

<style>
    pre.spirt-90c2056d-5b38-4644-824a-b4be1c82f14d {
        /* HACK(eddyb) reset default margin to something reasonable. */
        margin: 1ch;

        /* HACK(eddyb) avoid unnecessarily small or thin text. */
        font-size: 17px;
        font-weight: 500;
    }
    pre.spirt-90c2056d-5b38-4644-824a-b4be1c82f14d a {
        color: unset;
        font-weight: 900;
    }
    pre.spirt-90c2056d-5b38-4644-824a-b4be1c82f14d a:not(:hover) {
        text-decoration: unset;
    }
    pre.spirt-90c2056d-5b38-4644-824a-b4be1c82f14d sub, pre.spirt-90c2056d-5b38-4644-824a-b4be1c82f14d sup {
        line-height: 0;
    }

    /* HACK(eddyb) using a class (instead of an inline style) so that hovering
       over a multiversion table cell can disable its desaturation/dimming */
    pre.spirt-90c2056d-5b38-4644-824a-b4be1c82f14d:not(:hover) .unchanged {
        filter: saturate(0.3) opacity(0.5);
    }
</style>

</head>
<body>";

const AFTER_BODY: [u8; 16] = *b"</body>
</html>
";

// In each function here a `match` over an enum's cases: each says something of its own, and a table of closures would be no plainer.
pub fn form_of(kind: Kind) -> Form
    ensures { result ≡ form_of kind }
{
    match kind {
        Kind::Plain => Form::Plain,
        Kind::Body | Kind::Document => Form::Html,
        Kind::StrictBody | Kind::StrictDocument => Form::Strict,
    }
}

pub fn framing_of(kind: Kind) -> Option<Framing>
    ensures { result ≡ framing_of kind }
{
    match kind {
        Kind::Plain => None,
        Kind::Body | Kind::StrictBody => Some(Framing::Body),
        Kind::Document | Kind::StrictDocument => Some(Framing::Document),
    }
}

// What stands before the items.
pub fn put_head(page: &mut Page<'_>, framing: Option<Framing>)
    ensures put { Put page.old (head framing) page.new }
    ensures same_page { page.new.bytes.ghost_name ≡ page.old.bytes.ghost_name }
{
    let Some(framing) = framing else {
        return;
    };
    match framing {
        Framing::Body => page.put_bytes(&OPENING),
        Framing::Document => {
            page.put_bytes(&BEFORE_BODY);
            page.put_bytes(&OPENING);
        }
    }
}

// What stands behind them. Not one function with `put_head`: the document's bytes are outermost, so that the two have opposite orders.
pub fn put_foot(page: &mut Page<'_>, framing: Option<Framing>)
    ensures put { Put page.old (foot framing) page.new }
    ensures same_page { page.new.bytes.ghost_name ≡ page.old.bytes.ghost_name }
{
    let Some(framing) = framing else {
        return;
    };
    match framing {
        Framing::Body => page.put_bytes(&CLOSING),
        Framing::Document => {
            page.put_bytes(&CLOSING);
            page.put_bytes(&AFTER_BODY);
        }
    }
}
