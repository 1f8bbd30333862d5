//! What seats read, and trace outside the shared machine.

ghost use Rattle.ve_machine.specs.Readings.{ReadingsLast, ReadingsTrace};

/// What is traced along rows that were read comes from the job.
pub fn readings_trace()
    ensures { ReadingsTrace }
{}

/// The rows of a machine can be read, and last where ids die.
pub fn readings_last()
    ensures { ReadingsLast }
{}
