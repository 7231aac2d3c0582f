// How objects are shown: what a header, a payload and a listing read as is decided by the bytes that stand there, so that images which agree
// on some bytes of a block show the same objects there. These are laws over the definitions of medium and objects, cited by the crates above;
// there is no code here.
#![tactic(auto)]
