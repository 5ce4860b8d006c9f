//! What a world is: all hosts, correct and faulty ones, all clients, and all that was ever made and delivered. It holds definitions alone: what each
//! event of a schedule does, what stops one, what is forged, and what was hashed.
#![tactic(auto)]
