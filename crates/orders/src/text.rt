// Lines of text.
ghost use Rattle.std.specs.Prelude.{◌≡◌, ◌==◌};
ghost use Rattle.std.specs.List.{before_first};
ghost use Rattle.std.specs.Str.Iter.{split_whitespace_rest};

use std::str::SplitWhitespace;

// The words of a line, up to a '#', which begins a comment.
pub fn words_of(line: &str) -> SplitWhitespace<'_>
    ensures { split_whitespace_rest result ≡ before_first (λ b. b == 35) line.now }
{
    let code = line.split_once('#').map_or(line, |(before, _)| before);
    code.split_whitespace()
}
