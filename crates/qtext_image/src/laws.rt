//! The laws of images as texts, each the contract of a function that does nothing when it runs.
ghost use Rattle.qtext_image.specs.Examples.{WorkedImage};
ghost use Rattle.qtext_image.specs.FaultExamples.{WorkedCountFaults, WorkedNameFaults};
ghost use Rattle.qtext_image.specs.FaultExamples.{WorkedOrderFaults, WorkedTextFaults};
ghost use Rattle.qtext_image.specs.Laws.{ImagesAreExact, ImagesAreReadAgain};
ghost use Rattle.qtext_image.specs.Laws.{ImagesTellOfBeginnings, ImagesTellOfOtherBeginnings};

/// The image of a state that a store may begin with is read as its edition, its place and that state, where the ids of
/// principals and the bytes of files are what their types can hold and the place is at most 2^63.
pub fn images_are_read_again()
    ensures { ImagesAreReadAgain }
{}

/// An image that is read is the one spelling of the edition, the place and the state that it says, byte by byte.
pub fn images_are_exact()
    ensures { ImagesAreExact }
{}

/// An image that is read tells of a state that a store may begin with, of the setup that it tells of, and of any lawful
/// one that has the same bounds, file limit and principals.
pub fn images_tell_of_beginnings()
    ensures own { ImagesTellOfBeginnings }
    ensures others { ImagesTellOfOtherBeginnings }
{}

/// Faults of images that were written by hand, each of the kinds of images and some of those of any text, with the line
/// at which each is told.
pub fn worked_faults()
    ensures text { WorkedTextFaults }
    ensures order { WorkedOrderFaults }
    ensures names { WorkedNameFaults }
    ensures counts { WorkedCountFaults }
{}

/// An image that was written by hand is what the definitions make of its state.
pub fn worked_image()
    ensures { WorkedImage }
{}
