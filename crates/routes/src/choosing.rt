// Which line of a notebook is taken next.
ghost use Rattle.std.specs.Prelude.{◌≡◌, length};
ghost use Rattle.network.specs.Lists.{place_by_place};
ghost use Rattle.routes.specs.Choice.{AllSound, Chosen, line_before};

use super::line::Line;
use length::Kind;

// Whether arc numbers come first, compared place by place. By `cmp`, since `<=` of two slices of bytes takes longer.
fn arcs_first(a: &[u8], b: &[u8]) -> bool
    ensures { result ≡ place_by_place a.now b.now }
{
    a.cmp(b).is_le()
}

// Whether a line may stand before another.
fn comes_first<K: Kind>(kind: &K, a: &Line<K::Length>, b: &Line<K::Length>) -> bool
    ensures { result ≡ line_before (K.Kind.model kind.now) a.now b.now }
{
    kind.no_longer(a.projected, b.projected)
        && (!kind.no_longer(b.projected, a.projected)
            || arcs_first(a.arcs.as_slice(), b.arcs.as_slice()))
}

// The place of the line that is taken next, or none where every line is taken.
pub(super) fn next_line<K: Kind>(kind: &K, lines: &[Line<K::Length>]) -> Option<usize>
    requires { AllSound (K.Kind.model kind.now) lines.now (length lines.now) }
    ensures { Chosen (K.Kind.model kind.now) lines.now (length lines.now) result }
{
    let mut best: Option<(usize, &Line<K::Length>)> = None;
    for (place, line) in lines.iter().enumerate() {
        if !line.taken && best.is_none_or(|(_, first)| comes_first(kind, line, first)) {
            best = Some((place, line));
        }
    }
    best.map(|(place, _)| place)
}
