//! A stamp taken apart, field by field.

ghost use Rattle.std.specs.Prelude.{◌≡◌, None, IfSome, IsNone};
ghost use Rattle.set_walk.specs.Told.{IsCut};

use cube_alg::Stamp;

/// A field that a stamp replaces, and the others.
#[derive(Clone, Copy)]
pub(crate) struct Cut {
    pub field: Stamp,
    pub rest: Stamp,
}

/// The first field that the stamp replaces, and the others; `None` where it replaces nothing.
pub(crate) fn first_field(stamp: Stamp) -> Option<Cut>
    ensures cut { IfSome result (IsCut stamp) }
    ensures none { IsNone result → stamp ≡ record { src = None; dst = None; sport = None; dport = None } }
{
    let none = Stamp::none();
    let Stamp {
        src,
        dst,
        sport,
        dport,
    } = stamp;
    if src.is_some() {
        let field = Stamp { src, ..none };
        let rest = Stamp { src: None, ..stamp };
        return Some(Cut { field, rest });
    }
    if dst.is_some() {
        let field = Stamp { dst, ..none };
        let rest = Stamp { dst: None, ..stamp };
        return Some(Cut { field, rest });
    }
    if sport.is_some() {
        let field = Stamp { sport, ..none };
        let rest = Stamp {
            sport: None,
            ..stamp
        };
        return Some(Cut { field, rest });
    }
    if dport.is_some() {
        let field = Stamp { dport, ..none };
        let rest = Stamp {
            dport: None,
            ..stamp
        };
        return Some(Cut { field, rest });
    }
    None
}
