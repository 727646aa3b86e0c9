//! What the pieces of a body are together, over whole lists of messages.

ghost use Rattle.blockwise.specs.Joins.{DownloadsJoin, UploadsJoin, UploadsAnswered, UploadsSucceed, OnlyPieceIsWhole, OnlyAnswerIsLast};

/// A download gives a body by the last of some messages, and by none before, exactly where they are
/// all pieces of one representation, in order from its first byte, and the body is the join of
/// their payloads, of at most 65,536 bytes.
pub fn downloads_join()
    ensures { DownloadsJoin }
{}

/// The pieces that go, up to the last one, follow each other from the first byte of the body and
/// join to it, whatever sizes the answers asked for.
pub fn uploads_join()
    ensures { UploadsJoin }
{}

/// An upload comes to a response by the last of some answers exactly where each before it let the
/// next piece go, and this one is a response: one that ends the request, after the last piece, or
/// an error, after any.
pub fn uploads_answered()
    ensures { UploadsAnswered }
{}

/// Where an upload comes to a response that is no error, the pieces that went join to its body.
pub fn uploads_succeed()
    ensures { UploadsSucceed }
{}

/// A body in one message counts as a body in pieces does: a download gives its only piece, and an
/// upload takes the answer to its piece 0 as its response.
pub fn one_message()
    ensures downloads { OnlyPieceIsWhole }
    ensures uploads { OnlyAnswerIsLast }
{}
