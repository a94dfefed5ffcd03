// The laws of the verdict on a packet's form.
ghost use Rattle.packet.specs.Verdict.{FormLaws};

// Bytes lay out one packet or have one fault, never both.
pub fn forms_hold()
    ensures { FormLaws }
{}
