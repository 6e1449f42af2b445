// Theorems as contracts: the functions do nothing, and what they ensure holds of every family.
ghost use Rattle.register.specs.Facts.{MessageBounds, RegisterFacts, SealBounds};
ghost use Rattle.register.specs.RowExamples.{RowExamples};

use hashes::family::Family;

// The functions of the definitions give what their relations say, and each relation has one
// outcome. The rows of the table by examples.
pub fn register_facts<F: Family>()
    ensures facts { RegisterFacts F.meaning }
    ensures examples { RowExamples }
{}

// How few keys make the seals of different records differ by a word, or pass two different images.
pub fn seal_bounds<F: Family>()
    ensures { SealBounds F.meaning }
{}

// How few keys pass two images with different messages, each with its own pad.
pub fn message_bounds<F: Family>()
    ensures { MessageBounds F.meaning }
{}
