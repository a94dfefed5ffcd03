// The laws of the verdict that is worked out.
ghost use Rattle.forms.specs.Laws.{VerdictLaws};

// Whatever the packet's calls may answer is what is worked out from the bytes.
pub fn verdicts_hold()
    ensures { VerdictLaws }
{}
