// SMAC's four modes: what they are stands in specs/, and this is what holds of them.
#![tactic(auto)]

ghost use Rattle.smac.specs.Laws.{ModesAreLawful};

// Each of the four modes keeps the laws of a mode, with its number of registers, its reach and its largest tag.
pub fn modes_are_lawful()
    ensures { ModesAreLawful }
{}
