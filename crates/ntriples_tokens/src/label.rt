// BLANK_NODE_LABEL.
ghost use Rattle.std.specs.Prelude.{◌≡◌, ◌≤◌, length, drop};
ghost use Rattle.ntriples.specs.Grammar.{label, blank_node_label};
ghost use Rattle.ntriples.specs.Nodes.{whole};
ghost use Rattle.ntriples_tokens.specs.Promises.{Room, Parses, LabelEnds};

use crate::characters::{label_first, pn_chars};
use crate::values::{Token, put_part};

// Where a label's rest ends: a dot is the label's only where another character of it follows.
fn label_end(chars: &[u32], at: usize) -> usize
    requires { at ≤ length chars.now }
    ensures { LabelEnds chars.now at result }
{
    let mut end = at;
    for i in at..chars.len() {
        let c = chars[i];
        if pn_chars(c) {
            end = i + 1;
        } else if c != '.' as u32 {
            return end;
        }
    }
    end
}

// Whether all the characters are one label.
pub fn whole_label(chars: &[u32]) -> bool
    ensures { result ≡ whole (label chars.now) }
{
    match chars {
        [first, ..] => label_first(*first) && label_end(chars, 1) == chars.len(),
        [] => false,
    }
}

pub fn blank_node_label(chars: &[u32], at: usize, out: &mut [u8], used: usize) -> Option<Token>
    requires { Room 0 chars.now at out.old used }
    ensures { Parses 0 chars.now at out.old used (blank_node_label (drop at chars.now)) result
        out.new }
{
    let &[a, b, c, ..] = &chars[at..] else {
        return None;
    };
    if a != '_' as u32 || b != ':' as u32 || !label_first(c) {
        return None;
    }
    let next = label_end(chars, at + 3);
    let end = put_part(chars, at + 2, next, out, used);
    Some(Token { next, end })
}
