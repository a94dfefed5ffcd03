// The laws of ladders.
ghost use Rattle.book.specs.Laws.{LadderLaws};

use crate::order::Terms;

pub fn ladder_laws<T: Terms>()
    ensures { LadderLaws T }
{}
