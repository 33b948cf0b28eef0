//! Laws of the definitions in `specs/`: functions without a body, whose contracts are the laws.

ghost use Rattle.std.specs.Prelude.{◌≡◌, ◌≢◌, ◌↔◌, ℕ, ◌+◌, ◌^◌, ◌<◌, ◌≤◌, ◌==◌, List, [], ◌∷◌, ◌++◌, length, map, drop, count_by, true, false, None, decimal, codes, if◌then◌else◌};
ghost use Rattle.std.specs.List.{slice_split, concat, AllByRecursion};
ghost use Rattle.byteorder.specs.Endian.{big_bytes};
ghost use Rattle.std.specs.Str.{bytes_eq};
ghost use Rattle.pl_event.specs.declared.events.Event.{Event};
ghost use Rattle.pl_event.specs.declared.events.Event.TheVariants.{Read, Write, Caught};
ghost use Rattle.pl_event.specs.declared.events.Message.TheVariants.{Bytes, Line, Command};
ghost use Rattle.pl_event.specs.declared.events.Command.TheVariants.{Ping, Quit, Echo, Add, Get};
ghost use Rattle.pl_event.specs.declared.events.Caught.TheVariants.{Unknown, TooLong};
ghost use Rattle.pl_event.specs.declared.events.Fault.{Fault};
ghost use Rattle.pl_event.specs.declared.events.Fault.TheVariants.{Range, Full};
ghost use Rattle.pl_event.specs.Keys.{is_key};
ghost use Rattle.pl_event.specs.Meaning.{up_of, down_of};
ghost use Rattle.pl_stages.specs.declared.handlers.Handler.{Handler};
ghost use Rattle.pl_stages.specs.Cutting.{joined};
ghost use Rattle.pl_stages.specs.LineFraming.{line_framing, closed_segments, open_segment};
ghost use Rattle.pl_stages.specs.LengthFraming.{is_width, frames_of, length_framing};
ghost use Rattle.pl_stages.specs.LengthPrepending.{prefixed, length_prepending};
ghost use Rattle.pl_stages.specs.Numbers.{number_in};
ghost use Rattle.pl_stages.specs.Commands.{command_decoding, command_of, verb_of};
ghost use Rattle.pl_stages.specs.Service.{line_service, Addition, accepted, total_of, is_held, held_keys, refusal_of, has_quit};
ghost use Rattle.pl_stages.specs.Replies.{reply_encoding};
ghost use Rattle.pl_stages.specs.LineEnding.{line_ending};
ghost use Rattle.pl_stages.specs.Flushes.{flush_every};
ghost use Rattle.pl_stages.specs.Counts.{IsThrifty};

use crate::handlers::Handler;
use crate::limits::{MAX_DIGITS, MAX_KEYS, MAX_TOTAL};
use pl_event::Stage;

/// How much a handler makes of a whole list of events: upwards no more weight than it takes, one for each event and
/// one for each byte read; downwards at most two events for each one, and an outbound handler at most one.
pub fn count_law()
    ensures lines { (max : ℕ) → IsThrifty (line_framing max) }
    ensures frames { (width max : ℕ) → is_width width ≡ true → IsThrifty (length_framing width max) }
    ensures commands { IsThrifty command_decoding }
    ensures service { IsThrifty line_service }
    ensures texts { IsThrifty reply_encoding }
    ensures line_ends { IsThrifty line_ending }
    ensures lengths { (width : ℕ) → IsThrifty (length_prepending width) }
    ensures flushes { (n : ℕ) → IsThrifty (flush_every n) }
    ensures handlers { (handler : Handler) → IsThrifty (⟦<Handler as Stage>⟧.meaning handler) }
{}

/// What the service's totals come to. An addition is refused only where it would pass a limit; one that is accepted
/// raises the total of its own key, and nothing else changes any total.
pub fn service_law()
    ensures range { (key : List ℕ) (n : ℕ) (additions : List Addition)
        → (refusal_of key n additions ≡ Some Range) ↔ (MAX_TOTAL < total_of key additions + n) }
    ensures full { (key : List ℕ) (n : ℕ) (additions : List Addition)
        → (refusal_of key n additions ≡ Some Full)
        ↔ ((total_of key additions + n ≤ MAX_TOTAL) × (is_held key additions ≡ false) × (MAX_KEYS ≤ length (held_keys additions))) }
    ensures added { (xs : List Event) (key : List ℕ) (n : ℕ) (name : List ℕ)
        → has_quit xs ≡ false → refusal_of key n (accepted xs) ≡ None
        → total_of name (accepted (xs ++ Read (Command (Add key n)) ∷ []))
        ≡ total_of name (accepted xs) + (if bytes_eq name key then n else 0) }
    ensures refused { (xs : List Event) (key : List ℕ) (n : ℕ) (why : Fault)
        → refusal_of key n (accepted xs) ≡ Some why
        → accepted (xs ++ Read (Command (Add key n)) ∷ []) ≡ accepted xs }
    ensures others { (xs : List Event) (x : Event) → ((key : List ℕ) (n : ℕ) → x ≢ Read (Command (Add key n)))
        → accepted (xs ++ x ∷ []) ≡ accepted xs }
    ensures after_quit { (xs ys : List Event) → has_quit xs ≡ true → accepted (xs ++ ys) ≡ accepted xs }

    // No total is ever above the greatest, and no more keys are held than the most. Each is once among the keys held.
    ensures totals { (xs : List Event) (key : List ℕ) → total_of key (accepted xs) ≤ MAX_TOTAL }
    ensures keys { (xs : List Event) → length (held_keys (accepted xs)) ≤ MAX_KEYS }
    ensures each_once { (key : List ℕ) (additions : List Addition)
        → count_by (bytes_eq key) (held_keys additions) ≡ (if is_held key additions then 1 else 0) }
{}

/// The segments that line feeds close, and the open one after them, are what a split at each line feed gives.
pub fn framing_law()
    ensures { (bytes : List ℕ) → slice_split (λ b. b == 10) bytes ≡ closed_segments bytes ++ open_segment bytes ∷ [] }
{}

/// The frames of a stream, by what it begins with: a whole frame, one that is too long, an unfinished field or payload. How
/// the stream is cut into reads decides which read gives a frame, and nothing else.
pub fn length_framing_law()
    ensures whole { (width max : ℕ) (payload rest : List ℕ) → is_width width ≡ true
        → length payload < 256 ^ width → width + length payload ≤ max
        → frames_of width max (prefixed width payload ++ rest) ≡ Read (Line payload) ∷ frames_of width max rest }
    ensures too_long { (width max len : ℕ) (rest : List ℕ) → is_width width ≡ true
        → len < 256 ^ width → max < width + len
        → frames_of width max (big_bytes width len ++ rest) ≡ Caught TooLong ∷ frames_of width max (drop len rest) }
    ensures unfinished_payload { (width max len : ℕ) (part : List ℕ) → is_width width ≡ true
        → len < 256 ^ width → width + len ≤ max → length part < len → frames_of width max (big_bytes width len ++ part) ≡ [] }
    ensures unfinished_field { (width max : ℕ) (part : List ℕ) → is_width width ≡ true → length part < width → frames_of width max part ≡ [] }
    ensures read { (width max : ℕ) (xs : List Event) (chunk : List ℕ) → is_width width ≡ true
        → frames_of width max (joined xs) ++ (length_framing width max).up xs (Read (Bytes chunk)) ≡ frames_of width max (joined xs ++ chunk) }
    ensures however_cut { (width max : ℕ) (chunks : List (List ℕ)) → is_width width ≡ true
        → up_of (length_framing width max) (map (λ chunk. Read (Bytes chunk)) chunks) ≡ frames_of width max (concat chunks) }

    // What is written with its length in front is read as it was, however it is cut on its way.
    ensures prepended { (width : ℕ) (payloads : List (List ℕ)) → AllByRecursion (λ payload. length payload < 256 ^ width) payloads
        → down_of (length_prepending width) (map (λ payload. Write (Bytes payload)) payloads) ≡ map (λ payload. Write (Bytes (prefixed width payload))) payloads }
    ensures round_trip { (width max : ℕ) (payloads chunks : List (List ℕ)) → is_width width ≡ true
        → AllByRecursion (λ payload. (length payload < 256 ^ width) × (width + length payload ≤ max)) payloads
        → concat chunks ≡ concat (map (prefixed width) payloads)
        → up_of (length_framing width max) (map (λ chunk. Read (Bytes chunk)) chunks) ≡ map (λ payload. Read (Line payload)) payloads }
{}

/// The only lines that are commands, and the lines whose verb is unknown.
pub fn command_law()
    ensures ping { (line : List ℕ) → (command_of line ≡ Ok Ping) ↔ (line ≡ codes "PING") }
    ensures quit { (line : List ℕ) → (command_of line ≡ Ok Quit) ↔ (line ≡ codes "QUIT") }
    ensures echo { (line text : List ℕ) → (command_of line ≡ Ok (Echo text)) ↔ (line ≡ codes "ECHO " ++ text) }
    ensures add { (line key : List ℕ) (n : ℕ) → (command_of line ≡ Ok (Add key n))
        ↔ ((is_key key ≡ true) × (n < 10 ^ MAX_DIGITS) × (line ≡ codes "ADD " ++ key ++ codes " " ++ decimal n)) }
    ensures get { (line key : List ℕ) → (command_of line ≡ Ok (Get key)) ↔ ((is_key key ≡ true) × (line ≡ codes "GET " ++ key)) }
    // A text is a number exactly where it is how one of at most MAX_DIGITS digits is printed, without a leading zero.
    ensures number { (text : List ℕ) (n : ℕ) → (number_in text ≡ Some n) ↔ ((n < 10 ^ MAX_DIGITS) × (text ≡ decimal n)) }
    ensures unknown { (line : List ℕ) → (command_of line ≡ Err Unknown)
        ↔ ((verb_of line ≢ codes "PING") × (verb_of line ≢ codes "QUIT") × (verb_of line ≢ codes "ECHO") × (verb_of line ≢ codes "ADD") × (verb_of line ≢ codes "GET")) }
    // So every other line has wrong syntax.
    ensures never_long { (line : List ℕ) → command_of line ≢ Err TooLong }
{}
