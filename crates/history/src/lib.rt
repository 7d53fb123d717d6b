// Lists of feeds, and of feeds and restarts: a program that keeps only held bytes answers as a plain reckoning that keeps all
// bytes. No code: the definitions and the statements are in specs/, over any framing of messages and any handling of a message.
#![tactic(auto)]
