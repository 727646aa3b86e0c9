//! The laws.

ghost use Rattle.story_laws.specs.Arriving.{ArrivesWithin, ForgottenBefore};
ghost use Rattle.story_laws.specs.Executions.{AskedOnce, MessagesOnce};
ghost use Rattle.story_laws.specs.Lateness.{SentWithin};
ghost use Rattle.story_laws.specs.Orders.{WholesShow, WritesShow};
ghost use Rattle.story_laws.specs.Posts.{PostsOnce};
ghost use Rattle.story_laws.specs.Reads.{RepliesShow};

use blockwise::downloads_join;
use demo_origin::Behaviour;

/// Copies of a message go out within 49 seconds of its first sending.
pub fn sent_within()
    ensures { SentWithin }
{}

/// A message arrives after its first sending, and within 149 seconds of that.
pub fn arrives_within<H: Behaviour>()
    ensures { ArrivesWithin H.relation }
{}

/// Another message has its ID only after the device has forgotten it.
pub fn forgotten_before<H: Behaviour>()
    ensures { ForgottenBefore H.relation }
{}

/// A message is executed at most once, whatever the network does: its last copy arrives within 149
/// seconds of its first sending, and the device remembers it for 247 seconds.
pub fn messages_once<H: Behaviour>()
    ensures { MessagesOnce H.relation }
{}

/// What is asked is executed at most once, however it is answered, and if it isn't: of the messages
/// for one ask a device executes one at most.
pub fn asked_once<H: Behaviour>()
    ensures { AskedOnce H.relation }
{}

/// A POST that was answered by success was executed exactly once, by the message that was replied
/// to.
pub fn posts_once<H: Behaviour>()
    ensures { PostsOnce H.relation }
{}

/// A reply to a GET that comes in one piece shows a state that the resource held, not before the
/// device heard the message that asked for it, and not after it gave the reply out.
pub fn replies_show<H: Behaviour>()
    ensures { RepliesShow H.relation }
{}

/// Such a reply shows what each request did that was answered by success before that message was
/// sent, and nothing of after it was heard, where the proxy's entries and the device's calls have an
/// order in which nothing is heard before it is sent.
pub fn writes_show<H: Behaviour>()
    ensures { WritesShow H.relation }
{}

/// So do replies that are one whole state of a new device, in one piece or in several.
pub fn wholes_show<H: Behaviour>()
    ensures { WholesShow H.relation }
{
    // Its contract says that they are pieces of one representation, and what these join to.
    downloads_join();
}
