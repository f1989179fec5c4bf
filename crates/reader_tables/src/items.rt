//! Items of equations by themselves.

use matrix_reader::item;
use refusals::Why;
use residue_field::{Field, Res};

// The unknown of an item, the residue of its constant, if there is one, and whether there is a symbol.
type Said<'a> = (&'a str, Option<u32>, bool);

const ITEMS: [(&str, Result<Said<'static>, Why>); 19] = [
    ("x=1", Ok(("x", Some(1), false))),
    ("v.R1=-1", Ok(("v.R1", Some(65_520), false))),
    ("x=?", Ok(("x", None, true))),
    ("x=2+?", Ok(("x", Some(2), true))),
    ("x=+0.5+?", Ok(("x", Some(32_761), true))),
    ("x=0+?", Ok(("x", None, true))),
    ("x=0", Ok(("x", None, false))),
    ("x=-0/7", Ok(("x", None, false))),
    ("x", Err(Why::BadShape)),
    ("", Err(Why::BadShape)),
    ("=1", Err(Why::BadName)),
    ("1x=z", Err(Why::BadName)),
    ("x=", Err(Why::BadNumber)),
    ("x=??", Err(Why::BadNumber)),
    ("x=+?", Err(Why::BadNumber)),
    ("x=?+?", Err(Why::BadNumber)),
    ("x=y=1", Err(Why::BadNumber)),
    ("x=65521", Err(Why::Vanish)),
    ("x=1/65521+?", Err(Why::Vanish)),
];

fn said(token: &str) -> Result<Said<'_>, Why> {
    match item::<Res>(token) {
        Ok(item) => Ok((item.unknown, item.constant.map(Field::value), item.symbol)),
        Err(why) => Err(why),
    }
}

#[test]
fn items_are_told(rt: HostRuntime) {
    for (token, want) in ITEMS {
        assert_eq!(rt; said(token), want, "{token}");
    }
}
