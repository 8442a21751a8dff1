// Laws of the reader of books: one number for every list of bytes, the books that it takes, there and back. No code.
#![tactic(auto)]
