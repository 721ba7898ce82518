// A node of a judged sheet.
ghost use Rattle.std.specs.Prelude.{◌<◌, vec_len};

use crate::values::Judge;

// A node that is there, by its number. It borrows its judge, so that it is two words, which go from call to call in registers.
#[derive(Clone, Copy)]
pub(crate) struct JudgedNode<'a> {
    pub(crate) judge: &'a Judge<'a>,
    pub(crate) number: usize,
    ghost there: { number < vec_len judge.now.sheet.now.nodes },
}
