// The columns of a block once its steps are done.
ghost use Rattle.blocks.specs.Even.{AreEven};

// What the results of a block's units are laid from: entry i of each column is of the unit of index i.
#[derive(Clone, Copy)]
pub struct UnitColumns<'a> {
    pub why: &'a [u32],
    pub n0: &'a [i32],
    pub n1: &'a [i32],
    pub n2: &'a [i32],
    pub n3: &'a [i32],
    ghost even: { AreEven why.now n0.now n1.now n2.now n3.now },
}
