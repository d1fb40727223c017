// The fixed words, which are text origin 2.
// kept: as bytes, which is what rows refer to and what a text in the output is.

pub const WORDS_SIZE: usize = 178;

pub const WORDS: [u8; WORDS_SIZE] =
    *b"filtermap const record enum fn test import -> let returnacceptreject\
    match if while for  else  in  if  =>  =  +=  -=  *=  /=  %= :  ;,.?!-_()[]{}()f\"\"truefalse&&||==!=<<=>>=+*/%**";
