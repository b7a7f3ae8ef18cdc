// The cases of the sample network, shown from the definitions that the contracts cite.
#![tactic(auto)]

ghost use Rattle.samples.specs.Samples.{SamplesHold};

// Says that every case of the sample table comes out as the table has it.
pub fn samples_hold() -> u8
    ensures { SamplesHold }
{
    0
}
