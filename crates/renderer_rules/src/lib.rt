// The rules of rendering, and the machine that follows them with a list of open rows.
#![tactic(auto)]

pub mod texts;

ghost use Rattle.std.specs.Prelude.{◌≡◌, ◌+◌, ◌≤◌, ◌<◌, ◌^◌, true};
ghost use Rattle.renderer_rules.specs.Renderer.{indent_more, indent_less, next_indent_more, next_indent_less, on_new_line};

use rows::units::Columns;

// `indent`, `next_indent` and `column` of `Renderer`: what is carried from one call to the next.
#[derive(Clone, Copy, Debug, Default, PartialEq, Eq)]
pub struct Pen {
    pub indent: usize,
    pub next_indent: usize,
    pub column: Columns,
}

// kept: each method with `wrap` is an `if wrap { .. }` of the Rust, which would else stand at each of the six calls.
impl Pen {
    // Goes to a new line.
    pub fn break_line(&mut self)
        requires { self.old.indent + self.old.next_indent < 2 ^ 64 }
        ensures { self.new ≡ on_new_line self.old }
    {
        self.indent += self.next_indent;
        self.next_indent = 0;
        self.column = Columns(0);
    }

    // `indent` one more, where `wrap` holds.
    #[tactic(auto, unfolding(crate::specs::Renderer::indent_more))]
    pub fn indent_more(&mut self, wrap: bool)
        requires { self.old.indent + 1 < 2 ^ 64 }
        ensures { self.new ≡ indent_more wrap self.old }
    {
        if wrap {
            self.indent += 1;
        }
    }

    // `next_indent` one more, where `wrap` holds.
    #[tactic(auto, unfolding(crate::specs::Renderer::next_indent_more))]
    pub fn next_indent_more(&mut self, wrap: bool)
        requires { self.old.next_indent + 1 < 2 ^ 64 }
        ensures { self.new ≡ next_indent_more wrap self.old }
    {
        if wrap {
            self.next_indent += 1;
        }
    }

    // `indent` one less, where `wrap` holds.
    #[tactic(auto, unfolding(crate::specs::Renderer::indent_less))]
    pub fn indent_less(&mut self, wrap: bool)
        requires { wrap ≡ true → 1 ≤ self.old.indent }
        ensures { self.new ≡ indent_less wrap self.old }
    {
        if wrap {
            self.indent -= 1;
        }
    }

    // What `IndentNext` takes back in the end, where `wrap` holds.
    #[tactic(auto, unfolding(crate::specs::Renderer::next_indent_less, crate::specs::Renderer::indent_less))]
    pub fn next_indent_less(&mut self, wrap: bool)
        requires { wrap ≡ true → 1 ≤ self.old.indent + self.old.next_indent }
        ensures { self.new ≡ next_indent_less wrap self.old }
    {
        if wrap {
            if 0 < self.next_indent {
                self.next_indent -= 1;
            } else {
                self.indent -= 1;
            }
        }
    }
}

// An open row: whether its parts wrap; whether the first of its two parts is open (the callee of a `Call`, with the arguments ahead; the chosen
// part of an `IfWrap`, with the second to be passed over); whether a `Call` set its parts one step deeper, which its end takes back; and whether
// it is in the second branch of `render_node`, where a group is made up.
#[derive(Clone, Copy, Debug, PartialEq, Eq)]
pub struct Frame {
    pub row: u32,
    pub wrap: bool,
    pub first: bool,
    pub deeper: bool,
    pub made: bool,
}
