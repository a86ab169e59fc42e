// A file whose header is well-formed.
ghost use Rattle.tree_judging.specs.Requirements.{Sized};

// Such a file, and N, the number of its nodes.
#[derive(Clone, Copy)]
pub struct SizedFile<'a> {
    pub file: &'a [u8],
    pub nodes: usize,
    pub ghost sized: { Sized file.now nodes },
}
