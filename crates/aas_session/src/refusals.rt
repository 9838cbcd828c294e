// The replies that the server gives by itself, without memory.
ghost use Rattle.std.specs.Prelude.{◌≡◌};
ghost use Rattle.aas_session.specs.Refusals.{bad_request, not_implemented, out_of_memory, storage_fault, too_large};

pub fn bad_request() -> &'static [u8]
    ensures { result.now ≡ bad_request }
{
    b"HTTP/1.1 400 Bad Request\r\n\
      Content-Type: application/json\r\n\
      Content-Length: 70\r\n\
      Connection: close\r\n\r\n\
      {\"messages\":[{\"code\":\"1\",\"messageType\":\"Error\",\"text\":\"bad request\"}]}"
}

pub fn too_large() -> &'static [u8]
    ensures { result.now ≡ too_large }
{
    b"HTTP/1.1 413 Payload Too Large\r\n\
      Content-Type: application/json\r\n\
      Content-Length: 68\r\n\
      Connection: close\r\n\r\n\
      {\"messages\":[{\"code\":\"2\",\"messageType\":\"Error\",\"text\":\"too large\"}]}"
}

pub fn not_implemented() -> &'static [u8]
    ensures { result.now ≡ not_implemented }
{
    b"HTTP/1.1 501 Not Implemented\r\n\
      Content-Type: application/json\r\n\
      Content-Length: 74\r\n\
      Connection: close\r\n\r\n\
      {\"messages\":[{\"code\":\"3\",\"messageType\":\"Error\",\"text\":\"not implemented\"}]}"
}

pub fn storage_fault() -> &'static [u8]
    ensures { result.now ≡ storage_fault }
{
    b"HTTP/1.1 500 Internal Server Error\r\n\
      Content-Type: application/json\r\n\
      Content-Length: 73\r\n\
      Connection: close\r\n\r\n\
      {\"messages\":[{\"code\":\"22\",\"messageType\":\"Error\",\"text\":\"storage fault\"}]}"
}

pub fn out_of_memory() -> &'static [u8]
    ensures { result.now ≡ out_of_memory }
{
    b"HTTP/1.1 503 Service Unavailable\r\n\
      Content-Type: application/json\r\n\
      Content-Length: 72\r\n\
      Connection: close\r\n\r\n\
      {\"messages\":[{\"code\":\"0\",\"messageType\":\"Error\",\"text\":\"out of memory\"}]}"
}
