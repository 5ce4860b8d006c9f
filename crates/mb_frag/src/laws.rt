//! What is true of cutting and putting together as a whole. It holds no code.

ghost use Rattle.mb_frag.specs.Promises.{PiecesGiveTheMessage, MessagesComeWholeAndInOrder};

/// The pieces of a message, pushed in order into any reassembler, are all taken, and the message is then whole.
pub fn pieces_give_the_message()
    ensures { PiecesGiveTheMessage }
{}

/// A message that is whole came piece by piece, none left out and none of another message.
pub fn messages_come_whole_and_in_order()
    ensures { MessagesComeWholeAndInOrder }
{}
