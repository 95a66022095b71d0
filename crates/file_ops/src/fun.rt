//! The functions of two texels.

ghost use Rattle.std.specs.Prelude.{◌≡◌, ⊤, option_copied};
ghost use Rattle.std.specs.List.{find};
ghost use Rattle.std.specs.Str.{bytes_eq};
ghost use Rattle.file_ops.specs.Funs.{fun_of, fun_text, fun_again};

use base::Fun;
use file_json::{TextForm, Word};

const FUNS: [Fun; 10] = [
    Fun::Add,
    Fun::Sub,
    Fun::Mul,
    Fun::And,
    Fun::Or,
    Fun::Xor,
    Fun::Min,
    Fun::Max,
    Fun::Shl,
    Fun::Shr,
];

/// The words of the functions.
pub struct FunWord;

/// A function as text.
pub type FunForm = TextForm<FunWord>;

impl Word for FunWord {
    type Of = Fun;

    ghost value_of = { fun_of };

    ghost text_of = { fun_text };

    ghost Fits = { λ _. ⊤ };

    ghost again = { fun_again };

    fn value(text: &str) -> Option<Fun> {
        fun_of(text)
    }

    fn text(fun: &Fun) -> &str {
        fun_text(fun)
    }
}

fn fun_text(fun: &Fun) -> &'static str
    ensures { result.now ≡ fun_text fun.now }
{
    match fun {
        Fun::Add => "add",
        Fun::Sub => "sub",
        Fun::Mul => "mul",
        Fun::And => "and",
        Fun::Or => "or",
        Fun::Xor => "xor",
        Fun::Min => "min",
        Fun::Max => "max",
        Fun::Shl => "shl",
        Fun::Shr => "shr",
    }
}

fn find<'a>(funs: &'a [Fun], text: &str) -> Option<&'a Fun>
    ensures { option_copied result ≡ find (λ fun. bytes_eq text.now (fun_text fun)) funs.now }
{
    funs.iter().find(|fun| text == fun_text(fun))
}

fn fun_of(text: &str) -> Option<Fun>
    ensures { result ≡ fun_of text.now }
{
    find(&FUNS, text).copied()
}
